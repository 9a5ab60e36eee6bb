//! The writer, which loads and unloads images.
ghost use Rattle.std.specs.Prelude.{◌≡◌, [], ◌≢◌, ◌<◌, ◌≤◌, length, slice_index_or, vec_capacity, Some, Err, IfOk, IfErr};
ghost use Rattle.plcr_base.specs.declared.limits.TheConstants.{IMAGE_NAME_BYTES};
ghost use Rattle.plcr_base.specs.Limits.{IsImageName};
ghost use Rattle.plcr_machine.specs.Lists.{live, changes};
ghost use Rattle.plcr_machine.specs.Passes.{IsPaced};
ghost use Rattle.plcr_machine.specs.declared.change.Change.TheVariants.{Loads, Unloads};
ghost use Rattle.plcr_machine.specs.declared.limits.TheConstants.{MOST_CHANGES};
ghost use Rattle.plcr_nodes.specs.Opening.{IsSized, opened_owner};
ghost use Rattle.plcr_imagelist.specs.Finding.{first_with, without_first};
ghost use Rattle.plcr_imagelist.specs.inner.Keeping.{writer_state};
ghost use Rattle.plcr_imagelist.specs.States.{IsAtRest};
ghost use Rattle.plcr_imagelist.specs.Changes.{IsWorn, begun_load};
ghost use Rattle.plcr_imagelist.specs.Steps.{BeginsLoad, BeginsUnload, begun_unload, IsOpen};
ghost use Rattle.plcr_imagelist.specs.Listing.{HasLists, AddsChanges, change_of, made_by_load, made_by_unload};
ghost use Rattle.plcr_imagelist.specs.Loading.{made_by, writer_left, HasMade, LoadsOrRefuses, UnloadsOrRefuses};

use crate::books::Books;
use crate::change::{Change, Task};
use crate::list::ImageList;
use crate::refusals::{LoadRefused, UnloadRefused};
use plcr_base::IMAGE_NAME_BYTES;
use plcr_machine::{Image, MOST_CHANGES};
use plcr_nodes::Owner;
use std::alloc::{AllocError, Global};
use std::marker::Model;

/// Who loads and unloads images. Contracts see what it knows of the history.
#[derive(Drop)]
pub struct Writer {
    pub(crate) books: Books,
    /// Room for the name of the image that is being loaded.
    pub(crate) name: Vec<u8>,
}

impl Model for Writer {
    ghost use Rattle.std.specs.Prelude.{◌≤◌, vec_capacity};
    ghost use Rattle.plcr_base.specs.declared.limits.TheConstants.{IMAGE_NAME_BYTES};
    ghost use Rattle.plcr_imagelist.specs.States.{WriterState, IsAtRest};
    ghost use Rattle.plcr_imagelist.specs.inner.Keeping.{writer_state};

    ghost Value = { WriterState };

    ghost view = { λ w. writer_state w.books.owner };

    ghost invariant = { λ w. IsAtRest (writer_state w.books.owner)
        × (IMAGE_NAME_BYTES ≤ vec_capacity w.name) };
}

// A load in a free node.
#[inline(always)]
fn start_load(books: Books, kept: Vec<u8>, header: u64, name: &[u8]) -> Change
    requires rest { IsAtRest (writer_state books.owner) }
    requires fresh { changes books.owner.history < MOST_CHANGES }
    requires free { books.spare ≢ 0 }
    requires short { IsImageName name.now }
    requires room { IMAGE_NAME_BYTES ≤ vec_capacity kept }
    ensures { result ≡ begun_load (writer_state books.owner) header name.now books.spare }
{
    let load = books.loads() + 1;
    let mut kept = kept;
    kept.clear();
    match kept.extend_from_slice(name) {
        Ok(()) => {}
        Err(_) => unreachable!(),
    }
    Change {
        books,
        name: kept,
        task: Task::Load { header },
        load,
        made: 0,
    }
}

// An unload of an image of the list.
#[inline(always)]
fn start_unload(books: Books, kept: Vec<u8>, at: usize, image: Image) -> Change
    requires rest { IsAtRest (writer_state books.owner) }
    requires fresh { changes books.owner.history < MOST_CHANGES }
    requires image { (at < length (live books.owner.history))
        × (image ≡ slice_index_or (live books.owner.history) at image) }
    requires first { first_with image.header (live books.owner.history) ≡ Some image }
    requires room { IMAGE_NAME_BYTES ≤ vec_capacity kept }
    ensures { result ≡ begun_unload (writer_state books.owner) image books.spare }
{
    let mut kept = kept;
    kept.clear();
    Change {
        books,
        name: kept,
        task: Task::Unload { at, image },
        load: image.load,
        made: 0,
    }
}

impl Writer {
    /// The writer of a table that was just opened. All room is taken here.
    pub(crate) fn open(
        alloc: Global,
        owner: Owner,
        nodes: u32,
        passes: u32,
    ) -> Result<Writer, AllocError>
        requires { IsSized nodes passes × (owner ≡ opened_owner owner.table nodes passes) }
        ensures { IfOk result (λ w. w ≡ writer_state owner) }
    {
        let books = Books::open(alloc, owner, nodes, passes)?;
        let name = Vec::with_capacity(alloc, IMAGE_NAME_BYTES)?;
        Ok(Writer { books, name })
    }

    /// Begins a load on a free node. No step is made yet and nothing stored, but where no node is
    /// free it looks once at each pass, in the order of their numbers. `Worn` comes exactly where
    /// 4,294,967,295 changes were made, then
    /// `NameTooLong` exactly above 1,024 bytes, and `Full` exactly where no node is free after
    /// these looks.
    #[inline(always)]
    pub fn begin_load(
        self,
        list: &ImageList,
        header: u64,
        name: &[u8],
    ) -> Result<Change, (Writer, LoadRefused)>
        requires { self.table ≡ list.now }
        ensures worn { IsWorn self → result ≡ Err (self, LoadRefused.Worn MOST_CHANGES) }
        ensures long { ¬ IsWorn self → IMAGE_NAME_BYTES < length name.now →
            result ≡ Err (self, LoadRefused.NameTooLong (length name.now)) }
        ensures begins { ¬ IsWorn self → IsImageName name.now →
            BeginsLoad self header name.now result }
        ensures open { IfOk result (IsOpen self.table) }
        ensures back { IfErr result (λ r. (r.0.table ≡ self.table) × IsAtRest r.0) }
        ensures paced { IfOk result (λ change. IsPaced change.writer.history) }
        ensures made { HasMade self 0 (writer_left result) }
        ensures changes { AddsChanges self [] (writer_left result) }
        ensures change { IfOk result (λ change. change_of change.doing change.load
            ≡ Loads (record { load = change.load; header = header; name = name.now })) }
        ensures lists { IfOk result (λ change. HasLists change.writer) }
    {
        let Writer {
            mut books,
            name: kept,
        } = self;
        let changes = books.changes();
        if changes == MOST_CHANGES {
            return Err((Writer { books, name: kept }, LoadRefused::Worn { changes }));
        }
        if name.len() > IMAGE_NAME_BYTES {
            return Err((
                Writer { books, name: kept },
                LoadRefused::NameTooLong { len: name.len() },
            ));
        }
        match books.find_room(&list.nodes) {
            Some(refused) => Err((Writer { books, name: kept }, refused)),
            None => Ok(start_load(books, kept, header, name)),
        }
    }

    /// Begins an unload of the first image with the header. `Worn` comes exactly where
    /// 4,294,967,295 changes were made, and otherwise `NotLoaded` exactly where no image of the
    /// list has the header.
    #[inline(always)]
    pub fn begin_unload(
        self,
        list: &ImageList,
        header: u64,
    ) -> Result<Change, (Writer, UnloadRefused)>
        requires { self.table ≡ list.now }
        ensures worn { IsWorn self → result ≡ Err (self, UnloadRefused.Worn MOST_CHANGES) }
        ensures begins { ¬ IsWorn self →
            BeginsUnload self header (first_with header (live self.history)) result }
        ensures open { IfOk result (IsOpen self.table) }
        ensures back { IfErr result (λ r. (r.0.table ≡ self.table) × IsAtRest r.0) }
        ensures paced { IfOk result (λ change. IsPaced change.writer.history) }
        ensures made { HasMade self 0 (writer_left result) }
        ensures changes { AddsChanges self [] (writer_left result) }
        ensures change { IfOk result (λ change. change_of change.doing change.load
            ≡ Unloads header) }
        ensures lists { IfOk result (λ change. HasLists change.writer) }
    {
        let _ = list;
        let Writer { books, name: kept } = self;
        let changes = books.changes();
        if changes == MOST_CHANGES {
            return Err((
                Writer { books, name: kept },
                UnloadRefused::Worn { changes },
            ));
        }
        match books.find(header) {
            Some((at, image)) => Ok(start_unload(books, kept, at, image)),
            None => Err((Writer { books, name: kept }, UnloadRefused::NotLoaded)),
        }
    }

    /// Loads an image: makes all steps. Gives the number of the load.
    #[inline(always)]
    pub fn load(
        self,
        list: &ImageList,
        header: u64,
        name: &[u8],
    ) -> (Writer, Result<u32, LoadRefused>)
        requires { self.table ≡ list.now }
        ensures worn { IsWorn self →
            (result.0 ≡ self) × (result.1 ≡ Err (LoadRefused.Worn MOST_CHANGES)) }
        ensures long { ¬ IsWorn self → IMAGE_NAME_BYTES < length name.now →
            (result.0 ≡ self) × (result.1 ≡ Err (LoadRefused.NameTooLong (length name.now))) }
        ensures list { result.0.table ≡ self.table }
        ensures rest { IsAtRest result.0 }
        ensures loads { ¬ IsWorn self → IsImageName name.now →
            LoadsOrRefuses self header name.now result.0 result.1 }
        ensures made { HasMade self (made_by result.1) result.0 }
        ensures changes { AddsChanges self (made_by_load header name.now result.1) result.0 }
        ensures lists { HasLists result.0 }
    {
        match self.begin_load(list, header, name) {
            Ok(change) => {
                let load = change.load();
                (change.finish(list), Ok(load))
            }
            Err((writer, refused)) => (writer, Err(refused)),
        }
    }

    /// Unloads the first image with the header: makes all steps. Gives the number of its load.
    #[inline(always)]
    pub fn unload(self, list: &ImageList, header: u64) -> (Writer, Result<u32, UnloadRefused>)
        requires { self.table ≡ list.now }
        ensures worn { IsWorn self →
            (result.0 ≡ self) × (result.1 ≡ Err (UnloadRefused.Worn MOST_CHANGES)) }
        ensures list { result.0.table ≡ self.table }
        ensures rest { IsAtRest result.0 }
        ensures unloads { ¬ IsWorn self →
            UnloadsOrRefuses self (first_with header (live self.history)) result.0 result.1 }
        ensures made { HasMade self (made_by result.1) result.0 }
        ensures changes { AddsChanges self (made_by_unload header result.1) result.0 }
        ensures lists { HasLists result.0 }
        ensures first { ¬ IsWorn self →
            IfOk result.1 (λ _. live result.0.history ≡ without_first header (live self.history)) }
    {
        match self.begin_unload(list, header) {
            Ok(change) => {
                let load = change.load();
                (change.finish(list), Ok(load))
            }
            Err((writer, refused)) => (writer, Err(refused)),
        }
    }
}
