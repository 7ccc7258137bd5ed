//! The lines of a source that end by an LF, one after the other. A piece is read only where no line ends in what is
//! left of those before.

ghost use Rattle.std.specs.Prelude.{◌≡◌, ◌+◌, ◌-◌, ◌++◌, ◌<◌, ◌≤◌, [], ◌∷◌, length, take, drop, Some, None, Ok, Err};
ghost use Rattle.std.specs.Prelude.{true, false, IfSome, IfOk, IfErr, OnOk, OnErr};
ghost use Rattle.cs_base.specs.Limits.{most_text};
ghost use Rattle.census.specs.Lines.{AdvanceIs, FillIs, IsTakenUp, IsUnended, first_lf, most_piece};
ghost use Rattle.census.specs.Streams.{AddsPiece, Keeps, TakesAtMost};
ghost use Rattle.census.specs.Run.{IsLinesStop, IsReadStop};

use crate::source::Source;
use crate::status::Status;
use cs_base::MOST_TEXT;
use std::alloc::{AllocError, Global};
use std::marker::Model;

/// How many bytes are asked of the source at once.
const PIECE: usize = 65_536;

/// The line that was given last, and what was read behind it.
#[derive(Debug, Drop)]
pub struct Lines {
    buffer: Vec<u8>,
    /// Where the line begins in the buffer, where it ends, and where the bytes behind its LF begin.
    start: usize,
    end: usize,
    next: usize,
    taken: usize,
}

impl Model for Lines {
    ghost use Rattle.std.specs.Prelude.{◌-◌, ◌≤◌, length, take, drop};
    ghost use Rattle.cs_base.specs.Limits.{most_text};
    ghost use Rattle.census.specs.Lines.{Reader};

    ghost Value = { Reader };

    ghost view = { λ l. record {
      line = take (l.end - l.start) (drop l.start l.buffer.items);
      rest = drop l.next l.buffer.items;
      taken = l.taken;
    } };

    ghost invariant = { λ l. (l.start ≤ l.end) × (l.end ≤ l.next) × (l.next ≤ length l.buffer.items)
        × (l.taken ≤ most_text) };
}

impl Lines {
    /// Nothing was read.
    pub fn new(alloc: Global) -> Self
        ensures rest { result.rest ≡ [] }
        ensures taken { result.taken ≡ 0 }
    {
        Lines {
            buffer: Vec::new(alloc),
            start: 0,
            end: 0,
            next: 0,
            taken: 0,
        }
    }

    /// The line that was given last, without its LF.
    pub fn line(&self) -> &[u8]
        ensures { result.now ≡ self.now.line }
    {
        &self.buffer[self.start..self.end]
    }

    /// What was read behind it.
    pub fn rest(&self) -> &[u8]
        ensures { result.now ≡ self.now.rest }
    {
        &self.buffer[self.next..]
    }

    /// Gives the next line that ends by an LF. There is none where the source is at its end, and a source with more
    /// bytes than count is a limit.
    pub fn advance<S: Source>(&mut self, source: &mut S) -> Result<bool, Status>
        ensures advance { IfSome (S.left source.old)
            (λ left. AdvanceIs self.old self.new left (S.left source.new) result) }
        ensures taken { TakesAtMost (most_text + 1 - self.old.taken) (S.left source.old) (S.left source.new) }
        ensures few { self.new.taken ≤ most_text }
        ensures unended { IfOk result (IsUnended self.new) }
        ensures near { length self.old.rest ≤ most_piece → IfSome (S.left source.old)
            (λ left. IfOk result (λ more. more ≡ true → length self.new.rest ≤ most_piece)) }
        ensures counts { S.faults source.old ≤ S.faults source.new }
        ensures stop { IfErr result (IsLinesStop (S.faults source.old) (S.faults source.new)) }
    {
        let mut clean = 0;
        while !self.take_ended(clean) {
            clean = self.rest().len();
            if !self.fill(source)? {
                return Ok(false);
            }
        }
        Ok(true)
    }

    // Gives the next line, where an LF was read. So many bytes at the front of what is left have none.
    fn take_ended(&mut self, clean: usize) -> bool
        requires within { clean ≤ length self.old.rest }
        requires clean { first_lf (take clean self.old.rest) ≡ None }
        ensures value { IsTakenUp self.old self.new result }
        ensures taken { self.new.taken ≡ self.old.taken }
        ensures few { self.new.taken ≤ most_text }
    {
        let Some(place) = first_lf_behind(self.rest(), clean) else {
            return false;
        };
        self.start = self.next;
        self.end = self.start + place;
        self.next = self.end + 1;
        true
    }

    // Reads a piece behind what is left, or says that the source is at its end.
    fn fill<S: Source>(&mut self, source: &mut S) -> Result<bool, Status>
        ensures fill { IfSome (S.left source.old) (λ left. FillIs self.old self.new left (S.left source.new) result) }
        ensures taken { TakesAtMost (most_text + 1 - self.old.taken) (S.left source.old) (S.left source.new) }
        ensures few { self.new.taken ≤ most_text }
        ensures same { IfOk result (λ more. more ≡ false → self.new.rest ≡ self.old.rest) }
        ensures grows { IfOk result (λ more. more ≡ true → self.old.taken < self.new.taken) }
        ensures piece { IfOk result (λ more. length self.new.rest ≤ length self.old.rest + most_piece) }
        ensures front { IfOk result (λ more. take (length self.old.rest) self.new.rest ≡ self.old.rest) }
        ensures counts { S.faults source.old ≤ S.faults source.new }
        ensures stop { IfErr result (IsLinesStop (S.faults source.old) (S.faults source.new)) }
    {
        if self.taken == MOST_TEXT {
            check_end(source)?;
            return Ok(false);
        }
        self.drop_given()?;
        let room = PIECE.min(MOST_TEXT - self.taken);
        let count = read_piece(source, room, &mut self.buffer)?;
        self.taken += count;
        Ok(count > 0)
    }

    // Lets go what stands before the bytes that are left.
    fn drop_given(&mut self) -> Result<(), AllocError>
        ensures rest { self.new.rest ≡ self.old.rest }
        ensures taken { self.new.taken ≡ self.old.taken }
    {
        if self.next > 0 {
            self.buffer = Vec::from_slice(*self.buffer.allocator(), self.rest())?;
            self.start = 0;
            self.end = 0;
            self.next = 0;
        }
        Ok(())
    }
}

// The place of the first LF, of which there is none in so many bytes at the front.
fn first_lf_behind(text: &[u8], clean: usize) -> Option<usize>
    requires within { clean ≤ length text.now }
    requires clean { first_lf (take clean text.now) ≡ None }
    ensures { result ≡ first_lf text.now }
{
    let place = first_lf(&text[clean..])?;
    Some(clean + place)
}

// The place of the first LF.
fn first_lf(text: &[u8]) -> Option<usize>
    ensures { result ≡ first_lf text.now }
{
    text.iter().position(|b| *b == b'\n')
}

// Appends at most so many bytes of the source, and says how many: 0 at its end.
fn read_piece<S: Source>(source: &mut S, room: usize, input: &mut Vec<u8>) -> Result<usize, Status>
    requires { 0 < room }
    ensures bound { IfOk result (λ n. n ≤ room) }
    ensures left { IfOk result
        (λ n. AddsPiece (S.left source.old) (S.left source.new) n input.old.items input.new.items) }
    ensures len { IfOk result (λ n. length input.new.items ≡ length input.old.items + n) }
    ensures none { result ≡ Ok 0 → input.new.items ≡ input.old.items }
    ensures front { OnOk result (take (length input.old.items) input.new.items ≡ input.old.items) }
    ensures taken { TakesAtMost room (S.left source.old) (S.left source.new) }
    ensures failed { result ≡ Err Status.Read → (input.new.items ≡ input.old.items)
        × Keeps (S.left source.old) (S.left source.new) }
    ensures kept { OnErr result (length input.old.items ≤ length input.new.items) }
    ensures counts { S.faults source.old ≤ S.faults source.new }
    ensures stop { IfErr result (IsReadStop (S.faults source.old) (S.faults source.new)) }
{
    let mut piece = vec![in *input.allocator(); 0; room]?;
    let taken = source.read(piece.as_mut_slice())?;
    input.extend_from_slice(&piece[..taken])?;
    Ok(taken)
}

// Nothing is left in the source, or that is a limit.
fn check_end<S: Source>(source: &mut S) -> Result<(), Status>
    ensures end { OnOk result (IfSome (S.left source.old) (λ left. (left ≡ []) × (S.left source.new ≡ Some []))) }
    ensures more { result ≡ Err Status.Limit → IfSome (S.left source.old) (λ left. 0 < length left) }
    ensures failed { result ≡ Err Status.Read → Keeps (S.left source.old) (S.left source.new) }
    ensures taken { TakesAtMost 1 (S.left source.old) (S.left source.new) }
    ensures counts { S.faults source.old ≤ S.faults source.new }
    ensures stop { IfErr result (IsLinesStop (S.faults source.old) (S.faults source.new)) }
{
    let mut byte = [0; 1];
    match source.read(&mut byte)? {
        0 => Ok(()),
        _ => Err(Status::Limit),
    }
}
