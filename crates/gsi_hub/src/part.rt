//! What a hub keeps of a client.
ghost use Rattle.std.specs.Prelude.{◌≡◌, ℕ, ◌+◌, ◌<◌, ◌^◌, length, ⊤};
ghost use Rattle.scan_history.specs.Fold.{Opened, work, closed};
ghost use Rattle.gsi_hub.specs.Stages.{OnWork};
ghost use Rattle.gsi_hub.specs.inner.Parts.{opened_of, part_of};
ghost use Rattle.gsi_hub.specs.inner.Steps.{with_wrote, with_seen, with_opened, with_work};

use scan_coord::Session;
use scan_history::Numbers;
use seq_vector::Vector;
use std::mem::replace;

/// What is open for a client.
#[derive(Drop)]
pub enum Open {
    Nothing,
    Work(Work),
    /// A request on an index waits for an answer that covers its demand, since these were the newest numbers.
    Started {
        i: u32,
        demand: Vector,
        high: Vector,
    },
}

/// Indexes are built, since these were the newest numbers.
#[derive(Drop)]
pub struct Work {
    pub indexes: Numbers,
    pub high: Vector,
}

/// A client's part.
#[derive(Drop)]
pub struct Part {
    pub opened: Open,
    /// The place of its next command.
    pub next: u32,
    pub session: Session,
}

impl Part {
    /// Closes the client's next command.
    pub fn close(&mut self)
        requires { self.old.next + 1 < 2 ^ 32 }
        ensures { part_of self.new ≡ closed (part_of self.old) }
    {
        self.opened = Open::Nothing;
        self.next += 1;
    }

    /// Opens the client's next command.
    pub fn begin(&mut self, opened: Open)
        ensures { part_of self.new ≡ with_opened (opened_of opened) (part_of self.old) }
    {
        self.opened = opened;
    }

    /// Closes the client's next command, which is a creation, or opens it where its index is built.
    pub fn define(&mut self, work: Option<Work>)
        requires { self.old.next + 1 < 2 ^ 32 }
        ensures { part_of self.new ≡ with_work work (part_of self.old) }
    {
        match work {
            Some(work) => self.begin(Open::Work(work)),
            None => self.close(),
        }
    }

    /// Closes a mutation, with its number.
    pub fn wrote(&mut self, vb: u32, seqno: u64)
        requires room { self.old.next + 1 < 2 ^ 32 }
        requires vbucket { vb < length self.old.session.wrote }
        ensures { part_of self.new ≡ with_wrote vb seqno (part_of self.old) }
    {
        self.session.wrote.set(vb, seqno);
        self.close();
    }

    /// Closes a request, with the vector that its answer showed.
    pub fn saw(&mut self, at: &Vector)
        requires room { self.old.next + 1 < 2 ^ 32 }
        requires size { length self.old.session.seen ≡ length at.now }
        ensures { part_of self.new ≡ with_seen at.now (part_of self.old) }
    {
        self.session.seen.join_in(at);
        self.close();
    }

    /// Closes the building of indexes, and gives their numbers.
    pub fn built(&mut self) -> Numbers
        requires room { self.old.next + 1 < 2 ^ 32 }
        requires building { OnWork (opened_of self.old.opened) (λ indexes high. ⊤) }
        ensures numbers { OnWork (opened_of self.old.opened) (λ indexes high. result ≡ indexes) }
        ensures part { part_of self.new ≡ closed (part_of self.old) }
    {
        let opened = replace(&mut self.opened, Open::Nothing);
        self.close();
        numbers_in(opened)
    }
}

/// The indexes that are built.
fn numbers_in(opened: Open) -> Numbers
    requires { OnWork (opened_of opened) (λ indexes high. ⊤) }
    ensures { OnWork (opened_of opened) (λ indexes high. result ≡ indexes) }
{
    match opened {
        Open::Work(work) => work.indexes,
        _ => unreachable!(),
    }
}
