// Options, unions and pairs from nodes.
ghost use Rattle.std.specs.Prelude.{◌+◌, ◌<◌, ◌^◌, IfOk};
ghost use Rattle.rules_text.specs.nodes.Tree.{size, sizes};
ghost use Rattle.rules_data.specs.types.Kind as k;
ghost use Rattle.rules_data.specs.values.Literals.{read, read_option, read_or, read_rest};
ghost use Rattle.mich_base.specs.View.{tree, trees};
ghost use Rattle.mich_base.specs.TypeView.{kind};
ghost use Rattle.mich_data.specs.Answers.{AreFound, IsFound, made, pair_of};
ghost use Rattle.mich_data.specs.Whole.{IsWhole, IsWrappedWhole};
ghost use Rattle.mich_data.specs.Wrapped.{wrapped};

use crate::error::ValueError;
use crate::parts::{Parts, Wrapper, pair_value, split_parts, wrapped_value};
use crate::reading::Reading;
use crate::words::{Word, word_of_name};
use mich_base::{Node, Ty};
use mich_term::Value;

impl Reading {
    #[cycle(read)]
    pub(crate) fn read_option(&mut self, part: &Ty, node: &Node) -> Result<Value, ValueError>
        requires { self.old.next + size (tree node.now) < 2 ^ 32 }
        ensures found { IsFound (read_option (read (kind part.now))) (tree node.now) self.old self.new result }
        ensures whole { IfOk result (λ v. IsWhole (k.option (kind part.now)) v) }
    {
        let Node::Prim(app) = node else {
            return Err(ValueError::NotOfType(self.next));
        };
        match word_of_name(&app.name) {
            Word::None => {
                if !app.args.is_empty() {
                    return Err(ValueError::NotOfType(self.next));
                }
                self.next += 1;
                Ok(Value::None)
            }
            Word::Some => {
                let Some(argument) = app.args.only() else {
                    return Err(ValueError::NotOfType(self.next));
                };
                self.next += 1;
                self.read_argument(Wrapper::Some, part, argument)
            }
            _ => Err(ValueError::NotOfType(self.next)),
        }
    }

    #[cycle(read)]
    pub(crate) fn read_or(
        &mut self,
        left: &Ty,
        right: &Ty,
        node: &Node,
    ) -> Result<Value, ValueError>
        requires { self.old.next + size (tree node.now) < 2 ^ 32 }
        ensures found { IsFound (read_or (read (kind left.now)) (read (kind right.now))) (tree node.now)
            self.old self.new result }
        ensures whole { IfOk result (λ v. IsWhole (k.or (kind left.now) (kind right.now)) v) }
    {
        let at = self.next;
        let Node::Prim(app) = node else {
            return Err(ValueError::NotOfType(at));
        };
        let Some(argument) = app.args.only() else {
            return Err(ValueError::NotOfType(at));
        };
        self.next += 1;
        match word_of_name(&app.name) {
            Word::Left => self.read_argument(Wrapper::Left, left, argument),
            Word::Right => self.read_argument(Wrapper::Right, right, argument),
            _ => Err(ValueError::NotOfType(at)),
        }
    }

    // What a wrapper makes of the value that its argument spells.
    #[tactic(auto, using(crate::proofs::Steps::mapped_good, crate::proofs::Steps::fault_mapped))]
    #[cycle(read)]
    fn read_argument(&mut self, wrapper: Wrapper, ty: &Ty, node: &Node) -> Result<Value, ValueError>
        requires { self.old.next + size (tree node.now) < 2 ^ 32 }
        ensures found { IsFound (made (wrapped wrapper) (read (kind ty.now))) (tree node.now) self.old self.new result }
        ensures whole { IfOk result (λ v. IsWrappedWhole wrapper (kind ty.now) v) }
    {
        let value = self.read(ty, node)?;
        Ok(wrapped_value(self.alloc, wrapper, value)?)
    }

    #[cycle(read)]
    pub(crate) fn read_pair(
        &mut self,
        first: &Ty,
        second: &Ty,
        node: &Node,
    ) -> Result<Value, ValueError>
        requires { self.old.next + size (tree node.now) < 2 ^ 32 }
        ensures found { IsFound (read (k.pair (kind first.now) (kind second.now))) (tree node.now) self.old self.new result }
        ensures whole { IfOk result (λ v. IsWhole (k.pair (kind first.now) (kind second.now)) v) }
    {
        let at = self.next;
        match node {
            Node::Prim(app) => match word_of_name(&app.name) {
                Word::Pair => {
                    self.next += 1;
                    self.read_parts(first, second, app.args.as_slice(), at)
                }
                _ => Err(ValueError::NotOfType(at)),
            },
            Node::Seq(nodes) => {
                self.next += 1;
                self.read_parts(first, second, nodes.as_slice(), at)
            }
            _ => Err(ValueError::NotOfType(at)),
        }
    }

    // The parts of a pair, where the location of the whole is given.
    #[cycle(read)]
    fn read_parts(
        &mut self,
        first: &Ty,
        second: &Ty,
        parts: &[Node],
        whole: u32,
    ) -> Result<Value, ValueError>
        requires { self.old.next + sizes (trees parts.now) < 2 ^ 32 }
        ensures found { AreFound (pair_of (kind first.now) (kind second.now) whole) (trees parts.now) self.old self.new result }
        ensures whole { IfOk result (λ v. IsWhole (k.pair (kind first.now) (kind second.now)) v) }
    {
        match split_parts(parts) {
            Parts::Two(part, last) => {
                let value = self.read(first, part)?;
                let behind = self.read(second, last)?;
                Ok(pair_value(self.alloc, value, behind)?)
            }
            Parts::More(part, rest) => {
                let value = self.read(first, part)?;
                let behind = self.read_rest(second, rest, whole)?;
                Ok(pair_value(self.alloc, value, behind)?)
            }
            Parts::Fewer => Err(ValueError::NotOfType(whole)),
        }
    }

    // Two nodes or more as the parts of one pair of this type.
    #[cycle(read)]
    fn read_rest(&mut self, ty: &Ty, parts: &[Node], whole: u32) -> Result<Value, ValueError>
        requires { self.old.next + sizes (trees parts.now) < 2 ^ 32 }
        ensures found { AreFound (read_rest (kind ty.now) whole) (trees parts.now) self.old self.new result }
        ensures whole { IfOk result (λ v. IsWhole (kind ty.now) v) }
    {
        match ty {
            Ty::Pair(first, second) => self.read_parts(first.get(), second.get(), parts, whole),
            _ => Err(ValueError::NotOfType(whole)),
        }
    }
}
