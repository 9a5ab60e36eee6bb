//! A change that was begun, and its steps. Between any two of them it may be kept as long as its
//! owner likes.
ghost use Rattle.std.specs.Prelude.{◌≡◌, ◌≢◌, ℕ, suc, ◌+◌, ◌<◌, ◌≤◌, ◌∷◌, false, true, length, slice_index_or};
ghost use Rattle.plcr_base.specs.Limits.{IsImageName};
ghost use Rattle.plcr_machine.specs.Passes.{IsPaced};
ghost use Rattle.plcr_nodes.specs.Names.{words_of, store};
ghost use Rattle.plcr_imagelist.specs.States.{IsAtRest, Loads, is_load, change_step, steps_of};
ghost use Rattle.plcr_imagelist.specs.Changes.{IsCountedAt};
ghost use Rattle.plcr_imagelist.specs.Steps.{word_stored, value_stored, IsStepped, Advances, table_of, history_of};
ghost use Rattle.plcr_imagelist.specs.Listing.{HasLists, AddsChanges, made_by_step, writer_of};
ghost use Rattle.plcr_imagelist.specs.inner.Keeping.{writer_state};
ghost use Rattle.plcr_imagelist.specs.inner.Making.{doing_of, IsMaking, MakesStep, OnlyStores, HasCome, IsFinished};

use crate::books::Books;
use crate::list::ImageList;
use crate::words::{payload, words_of};
use crate::writer::Writer;
use plcr_machine::Image;
use plcr_nodes::Nodes;
use std::marker::Model;

/// What a change does.
#[derive(Clone, Copy)]
pub(crate) enum Task {
    /// Loads an image with this header.
    Load { header: u64 },
    /// Unloads the image at this place of the list.
    Unload { at: usize, image: Image },
}

/// A load or an unload that was begun. It has the writer until its last step.
#[derive(Drop)]
pub struct Change {
    pub(crate) books: Books,
    pub(crate) name: Vec<u8>,
    pub(crate) task: Task,
    pub(crate) load: u32,
    pub(crate) made: u32,
}

impl Model for Change {
    ghost use Rattle.std.specs.Prelude.{◌≤◌, vec_capacity};
    ghost use Rattle.plcr_base.specs.declared.limits.TheConstants.{IMAGE_NAME_BYTES};
    ghost use Rattle.plcr_imagelist.specs.States.{ChangeState};
    ghost use Rattle.plcr_imagelist.specs.inner.Keeping.{writer_state};

    ghost Value = { ChangeState };

    ghost use Rattle.plcr_imagelist.specs.inner.Making.{IsMaking, doing_of};

    ghost view = { λ c. record {
      writer = writer_state c.books.owner;
      doing =
          doing_of c.task c.name.items;
      load = c.load;
      made = c.made;
      node = c.books.spare;
    } };

    ghost invariant = { λ c. IsMaking c.books c.task c.name.items c.load c.made
        × (IMAGE_NAME_BYTES ≤ vec_capacity c.name) };
}

/// What is left after a step: the change, or the writer after the last one.
#[derive(Drop)]
pub enum Progress {
    More(Change),
    Done(Writer),
}

// The number of the step that makes the change itself.
fn change_step(task: &Task, name: &[u8]) -> u32
    requires { IsImageName name.now }
    ensures { result ≡ change_step (doing_of task.now name.now) }
{
    match task {
        Task::Load { .. } => 4 + words_of(name.len()) as u32,
        Task::Unload { .. } => 1,
    }
}

// One of the first steps of a load: stores a word of the image, or the end as its node's link.
fn store_word(books: &mut Books, nodes: &Nodes, header: u64, name: &[u8], made: usize)
    requires table { books.old.owner.table ≡ nodes.now }
    requires some { books.old.spare ≢ 0 }
    requires short { IsImageName name.now }
    requires early { made < 3 + words_of (length name.now) }
    ensures { books.new ≡ record books.old {
      owner =
          record books.old.owner {
            filled =
                store books.old.spare (word_stored name.now made) (value_stored header name.now made)
                ∷ books.old.owner.filled;
          };
    } }
{
    if made < 2 + words_of(name.len()) {
        let value = payload(header, name, made);
        books.fill(nodes, made as u32, value);
    } else {
        books.end_link(nodes);
    }
}

// Any step of a load but the count.
#[inline(always)]
fn load_step(books: &mut Books, nodes: &Nodes, header: u64, name: &[u8], load: u32, made: u32)
    requires table { books.old.owner.table ≡ nodes.now }
    requires making { IsMaking books.old (Task.Load header) name.now load made }
    requires early { made < change_step (Loads header name.now) }
    ensures { MakesStep books.old books.new (Task.Load header) name.now load made }
{
    if (made as usize) < 3 + words_of(name.len()) {
        store_word(books, nodes, header, name, made as usize);
    } else {
        books.link(nodes, header);
    }
}

// The step of an unload before the count.
#[inline(always)]
fn unload_step(
    books: &mut Books,
    nodes: &Nodes,
    at: usize,
    image: Image,
    name: &[u8],
    load: u32,
    made: u32,
)
    requires table { books.old.owner.table ≡ nodes.now }
    requires making { IsMaking books.old (Task.Unload at image) name.now load made }
    requires early { made < 1 }
    ensures { MakesStep books.old books.new (Task.Unload at image) name.now load made }
{
    books.unlink(nodes, at, image);
}

// All steps of a load before the change itself, and how many they are.
#[inline(always)]
fn store_load(books: &mut Books, nodes: &Nodes, header: u64, name: &[u8], load: u32) -> u32
    requires table { books.old.owner.table ≡ nodes.now }
    requires making { IsMaking books.old (Task.Load header) name.now load 0 }
    ensures making { IsMaking books.new (Task.Load header) name.now load result }
    ensures last { suc result ≡ change_step (Loads header name.now) }
    ensures spare { books.new.spare ≡ books.old.spare }
    ensures stores { OnlyStores (Loads header name.now) books.old.spare
        (writer_state books.old.owner) (writer_state books.new.owner) }
{
    books.fill_whole(nodes, header, name);
    3 + words_of(name.len()) as u32
}

// The same of any change: an unload has no such steps.
#[inline(always)]
fn store_words(books: &mut Books, nodes: &Nodes, task: Task, name: &[u8], load: u32) -> u32
    requires table { books.old.owner.table ≡ nodes.now }
    requires making { IsMaking books.old task name.now load 0 }
    ensures making { IsMaking books.new task name.now load result }
    ensures last { suc result ≡ change_step (doing_of task name.now) }
    ensures spare { books.new.spare ≡ books.old.spare }
    ensures stores { OnlyStores (doing_of task name.now) books.old.spare
        (writer_state books.old.owner) (writer_state books.new.owner) }
{
    match task {
        Task::Load { header } => store_load(books, nodes, header, name, load),
        Task::Unload { .. } => 0,
    }
}

// Any step of a change but the count.
#[inline(always)]
fn make_step(books: &mut Books, nodes: &Nodes, task: Task, name: &[u8], load: u32, made: u32)
    requires table { books.old.owner.table ≡ nodes.now }
    requires making { IsMaking books.old task name.now load made }
    requires early { made < change_step (doing_of task name.now) }
    ensures { MakesStep books.old books.new task name.now load made }
{
    match task {
        Task::Load { header } => load_step(books, nodes, header, name, load, made),
        Task::Unload { at, image } => unload_step(books, nodes, at, image, name, load, made),
    }
}

impl Change {
    /// How many steps the change takes in all. A load whose name has n bytes takes (n + 7) / 8 + 5,
    /// an unload 2.
    pub fn steps(&self) -> u32
        ensures { result ≡ steps_of self.now.doing }
    {
        change_step(&self.task, &self.name) + 1
    }

    /// How many steps were made.
    pub fn made(&self) -> u32
        ensures { result ≡ self.now.made }
    {
        self.made
    }

    /// The number of the load of its image.
    pub fn load(&self) -> u32
        ensures { result ≡ self.now.load }
    {
        self.load
    }

    /// Whether it loads its image, and doesn't unload it.
    pub fn is_load(&self) -> bool
        ensures { result ≡ is_load self.now.doing }
    {
        matches!(self.task, Task::Load { .. })
    }

    /// Makes one step. The last gives the writer back.
    #[inline(always)]
    pub fn step(mut self, list: &ImageList) -> Progress
        requires table { self.writer.table ≡ list.now }
        ensures step { IsStepped self result }
        ensures list { table_of result ≡ self.writer.table }
        ensures paced { IsPaced (history_of result) }
        ensures changes { AddsChanges self.writer (made_by_step self) (writer_of result) }
        ensures lists { HasLists (writer_of result) }
    {
        if self.made == change_step(&self.task, &self.name) {
            Progress::Done(self.count(list))
        } else {
            self.advance(list);
            Progress::More(self)
        }
    }

    /// Makes all its steps.
    #[inline(always)]
    pub(crate) fn finish(self, list: &ImageList) -> Writer
        requires table { self.writer.table ≡ list.now }
        requires begun { self.made ≡ 0 }
        ensures finished { IsFinished self result }
        ensures list { result.table ≡ self.writer.table }
    {
        let mut change = self;
        change.store_all(list);
        change.advance(list);
        change.count(list)
    }

    // All steps before the change itself.
    #[inline(always)]
    fn store_all(&mut self, list: &ImageList)
        requires table { self.old.writer.table ≡ list.now }
        requires begun { self.old.made ≡ 0 }
        ensures come { HasCome self.old self.new }
        ensures last { suc self.new.made ≡ change_step self.old.doing }
    {
        let made = store_words(
            &mut self.books,
            &list.nodes,
            self.task,
            &self.name,
            self.load,
        );
        self.made = made;
    }

    // The last step, which counts the change.
    #[inline(always)]
    fn count(self, list: &ImageList) -> Writer
        requires table { self.writer.table ≡ list.now }
        requires last { self.made ≡ change_step self.doing }
        ensures counted { IsCountedAt self.writer result }
        ensures rest { IsAtRest result }
        ensures lists { HasLists result }
        ensures list { result.table ≡ self.writer.table }
    {
        let Change {
            mut books,
            name,
            task: _,
            load: _,
            made: _,
        } = self;
        books.count(&list.nodes);
        Writer { books, name }
    }

    // Any step before that.
    #[inline(always)]
    fn advance(&mut self, list: &ImageList)
        requires table { self.old.writer.table ≡ list.now }
        requires early { self.old.made < change_step self.old.doing }
        ensures step { Advances self.old self.new }
        ensures list { self.new.writer.table ≡ self.old.writer.table }
        ensures paced { IsPaced self.new.writer.history }
        ensures lists { HasLists self.new.writer }
    {
        make_step(
            &mut self.books,
            &list.nodes,
            self.task,
            &self.name,
            self.load,
            self.made,
        );
        self.made += 1;
    }
}
