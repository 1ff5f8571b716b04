//! The parts of the clients. Each function changes the part of one.
ghost use Rattle.std.specs.Prelude.{◌≡◌, ℕ, ◌+◌, ◌<◌, ◌^◌, length, slice_get, slice_set, vec_len, Some, ⊤};
ghost use Rattle.scan_history.specs.Fold.{Client, closed};
ghost use Rattle.gsi_hub.specs.Stages.{OnWork};
ghost use Rattle.gsi_hub.specs.inner.Parts.{opened_of, parts_of};
ghost use Rattle.gsi_hub.specs.inner.Steps.{with_wrote, with_seen, with_opened, with_work};

use crate::part::{Open, Part, Work};
use scan_history::Numbers;
use seq_vector::Vector;

/// Closes the next command of a client.
pub(crate) fn close_at(parts: &mut Vec<Part>, c: usize)
    requires within { c < vec_len parts.old }
    requires room { (p : Client) → slice_get (parts_of parts.old.items) c ≡ Some p → p.next + 1 < 2 ^ 32 }
    ensures { (p : Client) → slice_get (parts_of parts.old.items) c ≡ Some p
        → parts_of parts.new.items ≡ slice_set (parts_of parts.old.items) c (closed p) }
{
    parts[c].close();
}

/// Opens it.
pub(crate) fn begin_at(parts: &mut Vec<Part>, c: usize, opened: Open)
    requires { c < vec_len parts.old }
    ensures { (p : Client) → slice_get (parts_of parts.old.items) c ≡ Some p
        → parts_of parts.new.items ≡ slice_set (parts_of parts.old.items) c (with_opened (opened_of opened) p) }
{
    parts[c].begin(opened);
}

/// Closes it, which is a creation, or opens it where its index is built.
pub(crate) fn define_at(parts: &mut Vec<Part>, c: usize, work: Option<Work>)
    requires within { c < vec_len parts.old }
    requires room { (p : Client) → slice_get (parts_of parts.old.items) c ≡ Some p → p.next + 1 < 2 ^ 32 }
    ensures { (p : Client) → slice_get (parts_of parts.old.items) c ≡ Some p
        → parts_of parts.new.items ≡ slice_set (parts_of parts.old.items) c (with_work work p) }
{
    parts[c].define(work);
}

/// Closes a mutation, with its number.
pub(crate) fn wrote_at(parts: &mut Vec<Part>, c: usize, vb: u32, seqno: u64)
    requires within { c < vec_len parts.old }
    requires room { (p : Client) → slice_get (parts_of parts.old.items) c ≡ Some p → p.next + 1 < 2 ^ 32 }
    requires vbucket { (p : Client) → slice_get (parts_of parts.old.items) c ≡ Some p → vb < length p.wrote }
    ensures { (p : Client) → slice_get (parts_of parts.old.items) c ≡ Some p
        → parts_of parts.new.items ≡ slice_set (parts_of parts.old.items) c (with_wrote vb seqno p) }
{
    parts[c].wrote(vb, seqno);
}

/// Closes a request, with the vector that its answer showed.
pub(crate) fn saw_at(parts: &mut Vec<Part>, c: usize, at: &Vector)
    requires within { c < vec_len parts.old }
    requires room { (p : Client) → slice_get (parts_of parts.old.items) c ≡ Some p → p.next + 1 < 2 ^ 32 }
    requires size { (p : Client) → slice_get (parts_of parts.old.items) c ≡ Some p → length p.seen ≡ length at.now }
    ensures { (p : Client) → slice_get (parts_of parts.old.items) c ≡ Some p
        → parts_of parts.new.items ≡ slice_set (parts_of parts.old.items) c (with_seen at.now p) }
{
    parts[c].saw(at);
}

/// Closes the building of indexes, and gives their numbers.
pub(crate) fn built_at(parts: &mut Vec<Part>, c: usize) -> Numbers
    requires within { c < vec_len parts.old }
    requires room { (p : Client) → slice_get (parts_of parts.old.items) c ≡ Some p → p.next + 1 < 2 ^ 32 }
    requires building { (p : Client) → slice_get (parts_of parts.old.items) c ≡ Some p → OnWork p.opened (λ indexes high. ⊤) }
    ensures numbers { (p : Client) → slice_get (parts_of parts.old.items) c ≡ Some p → OnWork p.opened (λ indexes high. result ≡ indexes) }
    ensures parts { (p : Client) → slice_get (parts_of parts.old.items) c ≡ Some p
        → parts_of parts.new.items ≡ slice_set (parts_of parts.old.items) c (closed p) }
{
    parts[c].built()
}
