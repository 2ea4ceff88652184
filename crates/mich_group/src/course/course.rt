// Statements behind the first one.
ghost use Rattle.std.specs.Prelude.{◌≡◌, ◌≤◌, ◌<◌, ◌+◌, ◌^◌, ℕ, true};
ghost use Rattle.rules_text.specs.nodes.Tree.{size};
ghost use Rattle.rules_files.specs.course.Course.{Course as PlainCourse, block_step, costs_step, granting, group_step, profile_step, step_behind};
ghost use Rattle.rules_files.specs.course.Ranges.{IsStatement};
ghost use Rattle.rules_data.specs.gas.Tables.{is_table};
ghost use Rattle.rules_files.specs.statements.Statements.{Group as PlainGroup};
ghost use Rattle.rules_world.specs.world.Balances.{granted_to};
ghost use Rattle.rules_world.specs.world.Forms.{is_moment};
ghost use Rattle.rules_data.specs.forms.Spelling.{is_key_hash};
ghost use Rattle.mich_base.specs.View.{tree};
ghost use Rattle.mich_ops.specs.View.{contents as contents_of};
ghost use Rattle.mich_group.specs.course.Following.{Follows, Goes, StaysRefused};
ghost use Rattle.mich_scenario.specs.View.{said};

use crate::apply_group;
use crate::course::error::CourseError;
use mich_base::Node;
use mich_forms::KeyHash;
use mich_gas::{Costs, read_costs};
use mich_machine::Bodies;
use mich_ops::{Group, GroupReceipt};
use mich_scenario::Statement;
use mich_world::{GrantError, World};
use std::alloc::Global;

/// How far a file has come: its world, its prices, how many groups it had, and whether nothing stood but its chain and a profile.
#[derive(Drop)]
pub struct Course {
    pub world: World,
    pub costs: Costs,
    pub groups: u64,
    pub at_head: bool,
}

impl Course {
    // The mutez that a byte of storage costs, directly behind the chain.
    fn profile(&mut self, rate: u64) -> Result<Option<GroupReceipt>, CourseError>
        requires follows { (p : PlainCourse) × Follows self.old p }
        ensures goes { (p : PlainCourse) → Follows self.old p → Goes (profile_step p rate) self.new result }
        ensures stays { StaysRefused self.old self.new result }
    {
        if !self.at_head || self.world.rate().is_some() {
            return Err(CourseError::BadOrder);
        }
        self.world.set_rate(rate);
        Ok(None)
    }

    // A table of prices, which stands at most once and before all but the chain and a profile.
    fn price(&mut self, table: &Node) -> Result<Option<GroupReceipt>, CourseError>
        requires follows { (p : PlainCourse) × Follows self.old p }
        requires table { is_table (tree table.now) ≡ true }
        requires size { size (tree table.now) < 2 ^ 32 }
        ensures goes { (p : PlainCourse) → Follows self.old p → Goes (costs_step p.at_head p (tree table.now)) self.new result }
        ensures stays { StaysRefused self.old self.new result }
    {
        if !self.at_head {
            return Err(CourseError::BadOrder);
        }
        match read_costs(table) {
            Ok(costs) => {
                self.costs = costs;
                self.at_head = false;
                Ok(None)
            }
            Err(_) => Err(CourseError::BadCosts),
        }
    }

    // A new account.
    fn grant(&mut self, who: KeyHash, mutez: u64) -> Result<Option<GroupReceipt>, CourseError>
        requires follows { (p : PlainCourse) × Follows self.old p }
        requires who { is_key_hash who ≡ true }
        ensures goes { (p : PlainCourse) → Follows self.old p → Goes (granting p (granted_to p.world who mutez)) self.new result }
        ensures stays { StaysRefused self.old self.new result }
    {
        match self.world.grant(who, mutez) {
            Ok(()) => {
                self.at_head = false;
                Ok(None)
            }
            Err(GrantError::RepeatedAccount) => Err(CourseError::RepeatedAccount),
            Err(GrantError::SupplyLimit) => Err(CourseError::SupplyLimit),
            Err(GrantError::Memory) => Err(CourseError::Memory),
        }
    }

    // A block, which is above the one before and not earlier.
    fn advance(&mut self, level: u32, moment: i64) -> Result<Option<GroupReceipt>, CourseError>
        requires follows { (p : PlainCourse) × Follows self.old p }
        requires moment { is_moment moment ≡ true }
        ensures goes { (p : PlainCourse) → Follows self.old p → Goes (block_step p level moment) self.new result }
        ensures stays { StaysRefused self.old self.new result }
    {
        let (_, last_level, last_moment) = self.world.clock();
        if last_level < level && last_moment <= moment {
            self.world.set_moment(level, moment);
            self.at_head = false;
            Ok(None)
        } else {
            Err(CourseError::BadOrder)
        }
    }

    // A group, which has the next number.
    fn apply(
        &mut self,
        alloc: Global,
        group: &Group,
        bodies: &mut Bodies,
    ) -> Result<Option<GroupReceipt>, CourseError>
        requires follows { (p : PlainCourse) × Follows self.old p }
        requires few { self.old.groups + 1 < 2 ^ 64 }
        requires ranges { IsStatement (PlainGroup group.now.source (contents_of group.now)) }
        ensures goes { (p : PlainCourse) → Follows self.old p → Goes (group_step p group.entry.now.source (contents_of group.entry.now)) self.new result }
        ensures stays { StaysRefused self.old self.new result }
    {
        let number = self.groups + 1;
        let receipt = apply_group(alloc, &mut self.world, &self.costs, number, group, bodies)?;
        self.world.end_marks();
        self.groups = number;
        self.at_head = false;
        Ok(Some(receipt))
    }

    /// The next statement: the rate of storage or prices are set, an account is made, a block begins, or a group is applied, whose
    /// receipt is answered. A statement is refused exactly where the rules refuse it, and leaves the course as it was; after Memory the
    /// course is given up (this host's own).
    pub fn take(
        &mut self,
        alloc: Global,
        statement: &Statement,
        bodies: &mut Bodies,
    ) -> Result<Option<GroupReceipt>, CourseError>
        requires follows { (p : PlainCourse) × Follows self.old p }
        requires few { self.old.groups + 1 < 2 ^ 64 }
        requires ranges { IsStatement (said statement.now) }
        ensures goes { (p : PlainCourse) → Follows self.old p → Goes (step_behind p (said statement.entry.now)) self.new result }
        ensures stays { StaysRefused self.old self.new result }
    {
        match statement {
            Statement::Chain(_, _, _) => Err(CourseError::BadOrder),
            Statement::Profile(rate) => self.profile(*rate),
            Statement::Costs(table) => self.price(table),
            Statement::Account(who, mutez) => self.grant(*who, *mutez),
            Statement::Block(level, moment) => self.advance(*level, *moment),
            Statement::Group(group) => self.apply(alloc, group, bodies),
        }
    }
}
