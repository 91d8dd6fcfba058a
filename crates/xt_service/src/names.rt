//! The names of what a session holds: lists that ascend by slot, life and number.

ghost use Rattle.std.specs.Prelude.{◌≡◌, ◌≤◌, ◌<◌, ◌+◌, length, vec_capacity, vec_len};
ghost use Rattle.xt_service.specs.Names.{has, is_before, is_same, named, place, with_blocks, with_name, without};

use xt_base::names::Block;
use xt_cell::mount_ref::MountRef;

/// What a session holds of a mount: a transaction by its number, or a held buffer by its block.
#[derive(Clone, Copy, Debug)]
pub struct Name {
    pub at: MountRef,
    pub number: u64,
}

impl Name {
    /// The number of the transaction, or the block of the held buffer.
    pub(crate) fn number(&self) -> u64
        ensures { result ≡ self.now.number }
    {
        self.number
    }

    /// Whether it is the other.
    fn is_same(&self, other: &Name) -> bool
        ensures { result ≡ is_same self.now other.now }
    {
        self.at.slot.index() == other.at.slot.index()
            && self.at.life.0 == other.at.life.0
            && self.number == other.number
    }

    /// Whether it stands before the other: by slot, then by life, then by number.
    fn is_before(&self, other: &Name) -> bool
        ensures { result ≡ is_before self.now other.now }
    {
        let (slot, other_slot) = (self.at.slot.index(), other.at.slot.index());
        let (life, other_life) = (self.at.life.0, other.at.life.0);
        slot < other_slot
            || (slot == other_slot
                && (life < other_life || (life == other_life && self.number < other.number)))
    }
}

/// Whether a name stands in a list.
pub(crate) fn has(names: &[Name], name: &Name) -> bool
    ensures { result ≡ has name.now names.now }
{
    names.iter().any(|other| other.is_same(name))
}

/// How many names stand before the first that does not stand before this one.
fn place(names: &[Name], name: &Name) -> usize
    ensures value { result ≡ place name.now names.now }
    ensures range { result ≤ length names.now }
{
    names
        .iter()
        .take_while(|other| other.is_before(name))
        .count()
}

/// Puts the name of a transaction or of a held buffer at its place, in room that was made before.
pub(crate) fn insert(names: &mut Vec<Name>, at: &MountRef, number: u64)
    requires room { vec_len names.old < vec_capacity names.old }
    ensures names { names.new.items ≡ with_name (named at.now number) names.old.items }
    ensures len { vec_len names.new ≡ vec_len names.old + 1 }
    ensures room { vec_capacity names.old ≤ vec_capacity names.new }
{
    let name = Name { at: *at, number };
    let place = place(names, &name);
    match names.insert(place, name) {
        Ok(()) => {}
        Err(_) => unreachable!(),
    }
}

/// Takes the name of a transaction or of a held buffer away.
pub(crate) fn remove(names: &mut Vec<Name>, at: &MountRef, number: u64)
    ensures names { names.new.items ≡ without (named at.now number) names.old.items }
    ensures len { vec_len names.new ≤ vec_len names.old }
    ensures room { vec_capacity names.old ≤ vec_capacity names.new }
{
    let name = Name { at: *at, number };
    names.retain(|other| !other.is_same(&name));
}

/// Puts the names of some blocks of a mount at their places, in room that was made before.
pub(crate) fn insert_blocks(names: &mut Vec<Name>, at: &MountRef, blocks: &[Block])
    requires room { vec_len names.old + length blocks.now ≤ vec_capacity names.old }
    ensures { names.new.items ≡ with_blocks at.now blocks.now names.old.items }
{
    let mut rest = blocks;
    while let Some((block, tail)) = rest.split_first() {
        insert(names, at, block.0);
        rest = tail;
    }
}
