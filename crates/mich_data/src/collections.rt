// Lists, sets and maps from nodes.
ghost use Rattle.std.specs.Prelude.{◌≡◌, ◌+◌, ◌<◌, ◌^◌, true, IfOk};
ghost use Rattle.rules_text.specs.nodes.Tree.{size, sizes};
ghost use Rattle.rules_data.specs.types.Kind as k;
ghost use Rattle.rules_data.specs.values.Literals.{is_behind, read, read_elements, read_increasing, read_list, read_set, read_table};
ghost use Rattle.rules_data.specs.values.Val.{big_table, list, set, table};
ghost use Rattle.mich_base.specs.View.{tree, trees};
ghost use Rattle.mich_base.specs.TypeView.{kind};
ghost use Rattle.mich_data.specs.Answers.{AreEntries, AreFound, IsBinding, IsEntry, IsFound, IsKeyBehind, all_entries, made, told};
ghost use Rattle.mich_data.specs.Whole.{AreWholeEntries, IsWhole};
ghost use Rattle.mich_term.specs.View.{datum};
ghost use Rattle.mich_term.specs.ValueView.{val};

use crate::error::ValueError;
use crate::parts::{Entry, big_value};
use crate::reading::Reading;
use crate::words::{Word, word_of_name};
use mich_base::{Link, Node, Nodes, Rows, Ty};
use mich_term::{Chain, Datum, Elements, Table, Value, compare};
use std::alloc::Global;
use std::cmp::Ordering;

impl Reading {
    #[cycle(read)]
    pub(crate) fn read_list(&mut self, part: &Ty, node: &Node) -> Result<Value, ValueError>
        requires { self.old.next + size (tree node.now) < 2 ^ 32 }
        ensures found { IsFound (read_list (read (kind part.now))) (tree node.now) self.old self.new result }
        ensures whole { IfOk result (λ v. IsWhole (k.list (kind part.now)) v) }
    {
        let Node::Seq(nodes) = node else {
            return Err(ValueError::NotOfType(self.next));
        };
        self.next += 1;
        self.read_elements(part, nodes)
    }

    // A list of the elements.
    #[tactic(auto, using(crate::proofs::Lists::elements_start))]
    #[cycle(read)]
    fn read_elements(&mut self, part: &Ty, nodes: &Nodes) -> Result<Value, ValueError>
        requires { self.old.next + sizes (trees nodes.now) < 2 ^ 32 }
        ensures found { AreFound (made list (read_elements (read (kind part.now)))) (trees nodes.now) self.old self.new result }
        ensures whole { IfOk result (λ v. IsWhole (k.list (kind part.now)) v) }
    {
        let mut values = Rows::new(self.alloc);
        for node in nodes.as_slice() {
            let value = self.read(part, node)?;
            values.push(value)?;
        }
        Ok(Value::List(Link::new(self.alloc, Chain::from_rows(values))?))
    }

    #[cycle(read)]
    pub(crate) fn read_set(&mut self, part: &Ty, node: &Node) -> Result<Value, ValueError>
        requires { self.old.next + size (tree node.now) < 2 ^ 32 }
        ensures found { IsFound (read_set (read (kind part.now))) (tree node.now) self.old self.new result }
        ensures whole { IfOk result (λ v. IsWhole (k.set (kind part.now)) v) }
    {
        let Node::Seq(nodes) = node else {
            return Err(ValueError::NotOfType(self.next));
        };
        self.next += 1;
        self.read_increasing(part, nodes)
    }

    // A set of the elements.
    #[tactic(auto, using(crate::proofs::Sets::set_start))]
    #[cycle(read)]
    fn read_increasing(&mut self, part: &Ty, nodes: &Nodes) -> Result<Value, ValueError>
        requires { self.old.next + sizes (trees nodes.now) < 2 ^ 32 }
        ensures found { AreFound (made set (read_increasing (read (kind part.now)) None)) (trees nodes.now)
            self.old self.new result }
        ensures whole { IfOk result (λ v. IsWhole (k.set (kind part.now)) v) }
    {
        let mut elements = Elements::new(self.alloc);
        for node in nodes.as_slice() {
            let at = self.next;
            let value = self.read(part, node)?;
            let element = key_behind(self.alloc, elements.last(), &value, at)?;
            elements.insert(element)?;
        }
        Ok(Value::Set(Link::new(self.alloc, elements)?))
    }

    #[cycle(read)]
    pub(crate) fn read_map(
        &mut self,
        key: &Ty,
        value: &Ty,
        node: &Node,
    ) -> Result<Value, ValueError>
        requires { self.old.next + size (tree node.now) < 2 ^ 32 }
        ensures found { IsFound (read (k.map (kind key.now) (kind value.now))) (tree node.now) self.old self.new result }
        ensures whole { IfOk result (λ v. IsWhole (k.map (kind key.now) (kind value.now)) v) }
    {
        let Node::Seq(nodes) = node else {
            return Err(ValueError::NotOfType(self.next));
        };
        self.next += 1;
        self.read_small(key, value, nodes)
    }

    #[cycle(read)]
    pub(crate) fn read_big_map(
        &mut self,
        key: &Ty,
        value: &Ty,
        node: &Node,
    ) -> Result<Value, ValueError>
        requires { self.old.next + size (tree node.now) < 2 ^ 32 }
        ensures found { IsFound (read (k.big_map (kind key.now) (kind value.now))) (tree node.now) self.old self.new result }
        ensures whole { IfOk result (λ v. IsWhole (k.big_map (kind key.now) (kind value.now)) v) }
    {
        let Node::Seq(nodes) = node else {
            return Err(ValueError::NotOfType(self.next));
        };
        self.next += 1;
        self.read_big(key, value, nodes)
    }

    // A map of the entries.
    #[tactic(auto, using(crate::proofs::Steps::mapped_good, crate::proofs::Steps::fault_mapped, mich_term::proofs::ForCallers::table_is))]
    #[cycle(read)]
    fn read_small(&mut self, key: &Ty, value: &Ty, nodes: &Nodes) -> Result<Value, ValueError>
        requires { self.old.next + sizes (trees nodes.now) < 2 ^ 32 }
        ensures found { AreFound (made table (all_entries (kind key.now) (kind value.now))) (trees nodes.now)
            self.old self.new result }
        ensures whole { IfOk result (λ v. IsWhole (k.map (kind key.now) (kind value.now)) v) }
    {
        let entries = self.read_entries(key, value, nodes)?;
        Ok(Value::Map(Link::new(self.alloc, entries)?))
    }

    // A big map of the entries, which lie in the value itself.
    #[tactic(auto, using(crate::proofs::Steps::mapped_good, crate::proofs::Steps::fault_mapped))]
    #[cycle(read)]
    fn read_big(&mut self, key: &Ty, value: &Ty, nodes: &Nodes) -> Result<Value, ValueError>
        requires { self.old.next + sizes (trees nodes.now) < 2 ^ 32 }
        ensures found { AreFound (made big_table (all_entries (kind key.now) (kind value.now))) (trees nodes.now)
            self.old self.new result }
        ensures whole { IfOk result (λ v. IsWhole (k.big_map (kind key.now) (kind value.now)) v) }
    {
        let entries = self.read_entries(key, value, nodes)?;
        Ok(big_value(self.alloc, entries)?)
    }

    #[tactic(auto, using(crate::proofs::Tables::entries_start))]
    #[cycle(read)]
    fn read_entries(
        &mut self,
        key: &Ty,
        value: &Ty,
        nodes: &Nodes,
    ) -> Result<Table<Value>, ValueError>
        requires { self.old.next + sizes (trees nodes.now) < 2 ^ 32 }
        ensures entries { AreEntries (all_entries (kind key.now) (kind value.now)) (trees nodes.now) self.old self.new result }
        ensures whole { IfOk result (λ es. AreWholeEntries (kind value.now) es) }
    {
        let mut entries = Table::new(self.alloc);
        for node in nodes.as_slice() {
            let entry = self.read_entry(key, value, entries.last_key(), node)?;
            entries.insert(entry.key, entry.value)?;
        }
        Ok(entries)
    }

    // An entry behind the greatest key so far.
    #[cycle(read)]
    fn read_entry(
        &mut self,
        key: &Ty,
        value: &Ty,
        before: Option<&Datum>,
        node: &Node,
    ) -> Result<Entry, ValueError>
        requires { self.old.next + size (tree node.now) < 2 ^ 32 }
        ensures entry { IsEntry (kind key.now) (kind value.now) (told before.entry) (tree node.now) self.old self.new result }
        ensures behind { IfOk result (λ e. is_behind (told before.entry) (datum e.key) ≡ true) }
        ensures whole { IfOk result (λ e. IsWhole (kind value.now) e.value) }
    {
        let Node::Prim(app) = node else {
            return Err(ValueError::NotOfType(self.next));
        };
        let Some(binding) = app.args.both() else {
            return Err(ValueError::NotOfType(self.next));
        };
        match word_of_name(&app.name) {
            Word::Entry => self.read_binding(key, value, before, binding),
            _ => Err(ValueError::NotOfType(self.next)),
        }
    }

    // The key and the value of the entry at the location.
    #[tactic(auto, using(crate::proofs::Tables::binding_key, crate::proofs::Tables::binding_order, crate::proofs::Tables::binding_value))]
    #[cycle(read)]
    fn read_binding(
        &mut self,
        key: &Ty,
        value: &Ty,
        before: Option<&Datum>,
        binding: (&Node, &Node),
    ) -> Result<Entry, ValueError>
        requires { self.old.next + 1 + size (tree binding.0.now) + size (tree binding.1.now) < 2 ^ 32 }
        ensures entry { IsBinding (kind key.now) (kind value.now) (told before.entry) binding.entry self.old self.new result }
        ensures behind { IfOk result (λ e. is_behind (told before.entry) (datum e.key) ≡ true) }
        ensures whole { IfOk result (λ e. IsWhole (kind value.now) e.value) }
    {
        let at = self.next;
        self.next += 1;
        let first = self.read(key, binding.0)?;
        let datum = key_behind(self.alloc, before, &first, at)?;
        let second = self.read(value, binding.1)?;
        Ok(Entry {
            key: datum,
            value: second,
        })
    }
}

// The value as a key that stands behind the greatest one so far. NotOfType where it can't stand there.
fn key_behind(
    alloc: Global,
    before: Option<&Datum>,
    value: &Value,
    at: u32,
) -> Result<Datum, ValueError>
    ensures { IsKeyBehind (is_behind (told before.entry) (val value.now)) (val value.now) at result }
{
    let Some(key) = value.datum(alloc)? else {
        return Err(ValueError::NotOfType(at));
    };
    if stands_behind(before, &key) {
        Ok(key)
    } else {
        Err(ValueError::NotOfType(at))
    }
}

#[tactic(auto, using(mich_term::proofs::ForCallers::datum_comparable))]
fn stands_behind(before: Option<&Datum>, key: &Datum) -> bool
    ensures { result ≡ is_behind (told before.entry) (datum key.now) }
{
    match before {
        None => true,
        Some(last) => compare(last, key) == Ordering::Less,
    }
}
