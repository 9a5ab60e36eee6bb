//! The writer's books: the owner of the table, the nodes that are free, those that wait to become
//! free, and the list.
ghost use Rattle.std.specs.Prelude.{◌≡◌, ◌≢◌, ℕ, suc, ◌+◌, ◌<◌, ◌≤◌, ◌∷◌, true, false, length, take, slice_index_or, vec_len, vec_capacity, IfOk, IfSome, IfNone};
ghost use Rattle.plcr_machine.specs.Lists.{live, loads, changes};
ghost use Rattle.plcr_machine.specs.Passes.{counts, is_announced, owes_count};
ghost use Rattle.plcr_machine.specs.Nodes.{is_free};
ghost use Rattle.plcr_machine.specs.Links.{last_place};
ghost use Rattle.plcr_machine.specs.declared.limits.TheConstants.{MOST_CHANGES};
ghost use Rattle.plcr_nodes.specs.declared.words.TheConstants.{PAYLOAD_WORDS};
ghost use Rattle.plcr_base.specs.Limits.{IsImageName};
ghost use Rattle.plcr_nodes.specs.Names.{IsFilled, IsEnded, header_in, store, words_of};
ghost use Rattle.plcr_nodes.specs.Opening.{IsSized, opened_owner};
ghost use Rattle.plcr_nodes.specs.Owning.{IsLinked, IsUnlinked, IsCounted};
ghost use Rattle.plcr_nodes.specs.Telling.{note_of_owner, IsOwnerTold, IsJoined};
ghost use Rattle.plcr_imagelist.specs.States.{IsAtRest};
ghost use Rattle.plcr_imagelist.specs.Finding.{NoneFree, first_with};
ghost use Rattle.plcr_imagelist.specs.Changes.{Looks};
ghost use Rattle.plcr_imagelist.specs.Refusing.{RefusesFull};
ghost use Rattle.plcr_imagelist.specs.Loading.{HasMade};
ghost use Rattle.plcr_imagelist.specs.inner.Keeping.{writer_state, last_of, times, once_where, is_node};
ghost use Rattle.plcr_imagelist.specs.inner.Making.{FindsRoom, stores_after};

use crate::bounds::{Removed, least_of, let_go, look_at_all};
use crate::refusals::LoadRefused;
use crate::words::store_image;
use plcr_machine::{COUNT_UNIT, Image};
use plcr_nodes::{NodeNote, NodePass, Nodes, Owner};
use std::alloc::{AllocError, Global};
use std::collections::VecDeque;
use std::marker::Model;

#[derive(Drop)]
pub(crate) struct Books {
    owner: Owner,
    /// The free nodes. The last is taken next.
    free: Vec<u32>,
    /// Nodes that were taken out of the list and aren't free yet.
    removed: Vec<Removed>,
    /// For each pass, the bound of what it has let go of.
    bounds: Vec<u64>,
    /// The list. A gap is closed from its shorter side.
    images: VecDeque<Image>,
    changes: u32,
    loads: u32,
}

impl Model for Books {
    ghost use Rattle.std.specs.Prelude.{◌≤◌, vec_capacity};
    ghost use Rattle.std.specs.VecDeque.{deque_capacity};
    ghost use Rattle.plcr_imagelist.specs.inner.Keeping.{BooksState, Agrees, last_of};

    ghost Value = { BooksState };

    ghost view = { λ b. record { owner = b.owner; spare = last_of b.free.items } };

    ghost invariant = { λ b. Agrees b.owner b.bounds.items b.free.items b.removed.items
        b.images.items b.changes b.loads
        × ((b.owner.nodes ≤ vec_capacity b.free) × (b.owner.nodes ≤ vec_capacity b.removed)
        × (b.owner.nodes ≤ deque_capacity b.images)) };
}

impl Books {
    /// The books of a table that was just opened. All room is taken here.
    pub(crate) fn open(
        alloc: Global,
        owner: Owner,
        nodes: u32,
        passes: u32,
    ) -> Result<Books, AllocError>
        requires { IsSized nodes passes × (owner ≡ opened_owner owner.table nodes passes) }
        ensures { IfOk result (λ b. b.owner ≡ owner) }
    {
        let free = all_nodes(alloc, nodes)?;
        let removed = Vec::with_capacity(alloc, nodes as usize)?;
        let bounds = Vec::from_elem(alloc, 0, passes as usize)?;
        let images = VecDeque::with_capacity(alloc, nodes as usize)?;
        Ok(Books {
            owner,
            free,
            removed,
            bounds,
            images,
            changes: 0,
            loads: 0,
        })
    }

    /// The node that the next load takes, 0 where none is free.
    pub(crate) fn spare(&self) -> u32
        ensures node { result ≡ self.now.spare }
        ensures none { result ≡ 0 →
            NoneFree self.now.owner.nodes self.now.owner.passes self.now.owner.history }
        ensures free { result ≢ 0 → (result ≤ self.now.owner.nodes)
            × (is_free self.now.owner.passes result self.now.owner.history ≡ true) }
    {
        last_of(&self.free)
    }

    /// Stores one payload word in the node that the next load takes.
    pub(crate) fn fill(&mut self, nodes: &Nodes, word: u32, value: u64)
        requires table { self.old.owner.table ≡ nodes.now }
        requires some { self.old.spare ≢ 0 }
        requires word { word < PAYLOAD_WORDS }
        ensures { self.new ≡ record self.old {
          owner =
              record self.old.owner {
                filled =
                    store self.old.spare (word + 1) value ∷ self.old.owner.filled;
              };
        } }
    {
        let node = self.spare();
        self.owner.fill(nodes, node, word, value);
    }

    /// Stores the end as that node's link.
    pub(crate) fn end_link(&mut self, nodes: &Nodes)
        requires table { self.old.owner.table ≡ nodes.now }
        requires some { self.old.spare ≢ 0 }
        ensures { self.new ≡ record self.old {
          owner =
              record self.old.owner { filled = store self.old.spare 0 0 ∷ self.old.owner.filled };
        } }
    {
        let node = self.spare();
        self.owner.end_link(nodes, node);
    }

    /// Stores an image in that node, and the end as its link.
    pub(crate) fn fill_whole(&mut self, nodes: &Nodes, header: u64, name: &[u8])
        requires table { self.old.owner.table ≡ nodes.now }
        requires some { self.old.spare ≢ 0 }
        requires short { IsImageName name.now }
        ensures { self.new ≡ record self.old {
          owner =
              record self.old.owner { filled = stores_after self.old.spare header name.now (3 + words_of (length name.now)) self.old.owner.filled };
        } }
    {
        let node = self.spare();
        store_image(&mut self.owner, nodes, node, header, name);
    }

    // The last place of the list.
    fn tail(&self) -> u32
        ensures { result ≡ last_place 0 (live self.now.owner.history) }
    {
        self.place_before(self.images.len())
    }

    /// Puts that node, which is filled and leads to the end, at the end of the list.
    pub(crate) fn link(&mut self, nodes: &Nodes, header: u64)
        requires table { self.old.owner.table ≡ nodes.now }
        requires some { self.old.spare ≢ 0 }
        requires filled { IsFilled self.old.spare self.old.owner.filled
            × IsEnded self.old.spare self.old.owner.filled }
        requires header { header ≡ header_in self.old.spare self.old.owner.filled }
        requires paced { (owes_count self.old.owner.history ≡ false)
            × (changes self.old.owner.history < MOST_CHANGES) }
        ensures { IsLinked self.old.owner self.old.spare self.new.owner }
    {
        let tail = self.tail();
        let node = self.spare();
        self.owner.link(nodes, tail, node);
        let _ = self.free.pop();
        self.changes += 1;
        self.loads += 1;
        let load = self.loads;
        self.images.push_back_reserved(Image { node, load, header });
    }

    // The place before one of the list's images, or before its end.
    fn place_before(&self, at: usize) -> u32
        requires { at ≤ length (live self.now.owner.history) }
        ensures { result ≡ last_place 0 (take at (live self.now.owner.history)) }
    {
        if at == 0 { 0 } else { self.images[at - 1].node }
    }

    /// Takes an image out of the list. Its node waits to become free.
    pub(crate) fn unlink(&mut self, nodes: &Nodes, at: usize, image: Image)
        requires table { self.old.owner.table ≡ nodes.now }
        requires image { (at < length (live self.old.owner.history))
            × (image ≡ slice_index_or (live self.old.owner.history) at image) }
        requires paced { (owes_count self.old.owner.history ≡ false)
            × (changes self.old.owner.history < MOST_CHANGES) }
        ensures { IsUnlinked self.old.owner image.node self.new.owner }
    {
        let before = self.place_before(at);
        let node = image.node;
        self.owner.unlink(nodes, before, node);
        let _ = self.images.remove(at);
        let before = self.changes;
        self.removed.push_reserved(Removed { node, before });
        self.changes += 1;
    }

    /// Counts the change.
    pub(crate) fn count(&mut self, nodes: &Nodes)
        requires table { self.old.owner.table ≡ nodes.now }
        requires owes { owes_count self.old.owner.history ≡ true }
        requires fewer { counts self.old.owner.history < MOST_CHANGES }
        ensures counted { (found : ℕ) × IsCounted self.old.owner found self.new.owner }
    {
        self.owner.count(nodes);
    }

    /// Looks at each pass, makes the nodes free that each of them has let go of by now, and says
    /// how many passes were announced.
    pub(crate) fn look(&mut self, nodes: &Nodes) -> u32
        requires table { self.old.owner.table ≡ nodes.now }
        requires rest { IsAtRest (writer_state self.old.owner) }
        ensures looks { Looks self.old.owner.passes (writer_state self.old.owner) result
            (writer_state self.new.owner) }
        ensures few { result ≤ self.old.owner.passes }
        ensures rest { IsAtRest (writer_state self.new.owner) }
        ensures same { self.new.owner ≡ record self.old.owner {
          history =
              self.new.owner.history;
          names = self.new.owner.names;
        } }
    {
        let passes = self.bounds.len() as u32;
        let announced = look_at_all(
            &mut self.owner,
            &mut self.bounds,
            nodes,
            passes,
            self.changes,
        );
        let least = least_of(&self.bounds);
        let_go(&mut self.free, &mut self.removed, least);
        announced
    }

    /// Looks at each pass where no node is free, and says no where none is free after that either.
    pub(crate) fn find_room(&mut self, nodes: &Nodes) -> Option<LoadRefused>
        requires table { self.old.owner.table ≡ nodes.now }
        requires rest { IsAtRest (writer_state self.old.owner) }
        ensures none { IfNone result (FindsRoom self.old self.new) }
        ensures some { IfSome result
            (RefusesFull (writer_state self.old.owner) (writer_state self.new.owner)) }
        ensures rest { IsAtRest (writer_state self.new.owner) }
        ensures made { HasMade (writer_state self.old.owner) 0 (writer_state self.new.owner) }
        ensures list { self.new.owner.table ≡ self.old.owner.table }
    {
        if self.spare() != 0 {
            return None;
        }
        let announced = self.look(nodes);
        if self.spare() != 0 {
            return None;
        }
        let live = self.live();
        let held = self.held();
        let seen = self.changes as u64 * COUNT_UNIT + announced as u64;
        Some(LoadRefused::Full { live, held, seen })
    }

    /// A note of what the owner has seen.
    pub(crate) fn note(&mut self, nodes: &Nodes) -> NodeNote
        requires table { self.old.owner.table ≡ nodes.now }
        ensures same { self.new ≡ self.old }
        ensures note { result ≡ note_of_owner self.old.owner }
    {
        self.owner.note(nodes)
    }

    /// Takes in what a note's token had seen.
    pub(crate) fn told(&mut self, nodes: &Nodes, note: NodeNote)
        requires table { (self.old.owner.table ≡ nodes.now) × (note.table ≡ nodes.now) }
        ensures told { IsOwnerTold self.old.owner note self.new.owner }
        ensures spare { self.new.spare ≡ self.old.spare }
    {
        self.owner.told(nodes, note);
    }

    /// Joins a pass that is neither in nor announced.
    pub(crate) fn join(&mut self, nodes: &Nodes, pass: NodePass)
        requires table { (self.old.owner.table ≡ nodes.now) × (pass.table ≡ nodes.now) }
        requires retired { is_announced pass.number pass.history ≡ false }
        ensures joined { IsJoined self.old.owner pass self.new.owner }
    {
        self.owner.join(nodes, pass);
    }

    /// The first image with a header, with its place in the list.
    pub(crate) fn find(&self, header: u64) -> Option<(usize, Image)>
        ensures some { IfSome result (λ r. (r.0 < length (live self.now.owner.history))
            × (r.1 ≡ slice_index_or (live self.now.owner.history) r.0 r.1)
            × (first_with header (live self.now.owner.history) ≡ Some r.1)
            × (r.1.header ≡ header)) }
        ensures none { IfNone result (first_with header (live self.now.owner.history) ≡ None) }
    {
        find_header(&self.images, header)
    }

    /// How many images the list has.
    pub(crate) fn live(&self) -> u32
        ensures count { result ≡ length (live self.now.owner.history) }
        ensures most { result ≤ self.now.owner.nodes }
    {
        self.images.len() as u32
    }

    /// How many nodes are out of the list, where none is free.
    pub(crate) fn held(&self) -> u32
        requires { self.now.spare ≡ 0 }
        ensures { result + length (live self.now.owner.history) ≡ self.now.owner.nodes }
    {
        self.removed.len() as u32
    }

    /// How many changes were made.
    pub(crate) fn changes(&self) -> u32
        ensures count { result ≡ changes self.now.owner.history }
        ensures most { result ≤ MOST_CHANGES }
    {
        self.changes
    }

    /// How many images were loaded.
    pub(crate) fn loads(&self) -> u32
        ensures { result ≡ loads self.now.owner.history }
    {
        self.loads
    }
}

/// The last number, 0 where there is none.
pub(crate) fn last_of(numbers: &[u32]) -> u32
    ensures { result ≡ last_of numbers.now }
{
    match numbers.last() {
        Some(number) => *number,
        None => 0,
    }
}

/// The first image with a header, with its place.
fn find_header(images: &VecDeque<Image>, header: u64) -> Option<(usize, Image)>
    ensures some { IfSome result (λ r. (r.0 < length images.now.items)
        × (r.1 ≡ slice_index_or images.now.items r.0 r.1)
        × (first_with header images.now.items ≡ Some r.1) × (r.1.header ≡ header)) }
    ensures none { IfNone result (first_with header images.now.items ≡ None) }
{
    let (front, back) = images.as_slices();
    if let Some(found) = find_in(front, header) {
        return Some(found);
    }
    match find_in(back, header) {
        Some((at, image)) => Some((front.len() + at, image)),
        None => None,
    }
}

// The first of a slice with a header.
#[tactic(auto, using(crate::proofs::Placed::first_skip, crate::proofs::Placed::first_here, crate::proofs::Placed::first_none))]
fn find_in(images: &[Image], header: u64) -> Option<(usize, Image)>
    ensures some { IfSome result (λ r. (r.0 < length images.now)
        × (r.1 ≡ slice_index_or images.now r.0 r.1) × (first_with header images.now ≡ Some r.1)
        × (r.1.header ≡ header)) }
    ensures none { IfNone result (first_with header images.now ≡ None) }
{
    for (at, image) in images.iter().enumerate() {
        if image.header == header {
            return Some((at, *image));
        }
    }
    None
}

/// The numbers of all nodes.
fn all_nodes(alloc: Global, nodes: u32) -> Result<Vec<u32>, AllocError>
    ensures { IfOk result (λ v. ((n : ℕ) → times n v.items ≡ once_where (is_node nodes n))
        × (vec_len v ≡ nodes) × (nodes ≤ vec_capacity v)) }
{
    let mut all = Vec::with_capacity(alloc, nodes as usize)?;
    for node in 0..nodes {
        all.push_reserved(node + 1);
    }
    Ok(all)
}
