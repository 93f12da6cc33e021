// Lines of a file, read piece by piece.
ghost use Rattle.std.specs.Prelude.{◌≡◌, ◌+◌, ◌^◌, ◌<◌, ◌≤◌, ◌↔◌, ◌||◌, ◌==◌, [], false, true, drop, take, length, nat_lt, position, if◌then◌else◌, IfOk, MatchOption, MatchResult, Ok, OnErr};
ghost use Rattle.std.specs.Io.KnownBytes.{IsAtEnd};
ghost use Rattle.clr_io.specs.Causes.{HasCause, Rose};
ghost use Rattle.clr_io.specs.Lines.{Answers, Counts, GivesShort, IsFeedAt, IsSame, TakesSome, ends, has_feed, is_feed};
ghost use Rattle.clr_io.specs.ReadBuffer.{TakesPiece};

use crate::read_buffer::{PIECE, ReadBuffer};
use crate::{Failed, Shelf};
use std::alloc::{AllocError, Global};
use std::marker::Model;

/// What comes next in a file.
#[derive(Clone, Copy, Debug, PartialEq, Eq)]
pub enum Line {
    /// A line that isn't too long. [`Lines::bytes`] lends it, without its line feed.
    Whole,
    /// A longer line, whose bytes are not kept.
    Long,
    /// The file ended without a further line feed.
    Rest {
        /// Whether more bytes are left than a line may have. Where there are not, [`Lines::bytes`] lends them.
        long: bool,
    },
    /// More bytes were taken than the limit allows.
    Over,
}

/// Reads the open file of a shelf line by line, however its reads cut the bytes. It takes all its memory when it is made,
/// and looks at each byte once.
///
/// The bytes to come are those that were taken and not yet given, and behind them the rest of the shelf's open file.
#[derive(Drop)]
pub struct Lines {
    buffer: ReadBuffer,
    longest: u32,
    max: u64,
    taken: u64,
    ended: bool,
}

impl Model for Lines {
    ghost use Rattle.std.specs.Prelude.{◌≡◌, ◌+◌, ◌^◌, ◌≤◌, ◌<◌, false};
    ghost use Rattle.clr_io.specs.Lines.{Reading};

    ghost Value = { Reading };

    ghost view = { λ l. record { longest = l.longest; max = l.max; taken = l.taken; held = l.buffer.held; ended = l.ended; given = l.buffer.given } };

    ghost invariant = { λ l. (l.buffer.room ≡ l.longest + 65536) × (l.longest < 2 ^ 32) × (l.max ≤ 2 ^ 62) × (l.taken ≤ l.max + 65536) × (l.ended ≡ false → l.taken ≤ l.max) };
}

// Where the first line feed stands.
fn line_feed(bytes: &[u8]) -> Option<usize>
    ensures { result ≡ position is_feed bytes.now }
{
    bytes.iter().position(|byte| *byte == b'\n')
}

// Where the first line feed behind so many bytes stands.
fn feed_after(bytes: &[u8], known: usize) -> Option<usize>
    requires { known ≤ length bytes.now }
    ensures { MatchOption result (has_feed (drop known bytes.now) ≡ false) (λ count. IsFeedAt bytes.now known count) }
{
    match line_feed(&bytes[known..]) {
        Some(more) => Some(known + more),
        None => None,
    }
}

impl Lines {
    /// Lines of at most `longest` bytes, of a file of which no more than `max` bytes are asked for. No byte is taken yet.
    ///
    /// # Errors
    /// Where memory is wanting.
    pub fn new(alloc: Global, longest: u32, max: u64) -> Result<Lines, AllocError>
        requires longest { 1 ≤ longest }
        requires max { max ≤ 2 ^ 62 }
        ensures limits { IfOk result (λ lines. (lines.longest ≡ longest) × (lines.max ≡ max)) }
        ensures start { IfOk result (λ lines. (lines.taken ≡ 0) × (lines.held ≡ []) × (lines.given ≡ []) × (lines.ended ≡ false)) }
    {
        Ok(Lines {
            buffer: ReadBuffer::new(alloc, longest as usize + PIECE)?,
            longest,
            max,
            taken: 0,
            ended: false,
        })
    }

    /// How many bytes of the file were taken so far.
    pub fn taken(&self) -> u64
        ensures { result ≡ self.now.taken }
    {
        self.taken
    }

    /// The bytes that the last [`next`](Lines::next) gave: those of a whole line, without its line feed, or those that are
    /// left of the file. None after any other answer.
    pub fn bytes(&self) -> &[u8]
        ensures { result.now ≡ self.now.given }
    {
        self.buffer.given()
    }

    /// Gives the next line, or what is left of the file. It reads pieces of up to 65,536 bytes, where no line feed is held.
    ///
    /// The shelf has taken as many bytes as these lines: it was opened before the first call, and is asked by these lines
    /// alone. Once the answer was `Rest`, `Over` or an error, nothing more may be asked for.
    ///
    /// # Errors
    /// Where the shelf failed. `Over` comes before every other answer, exactly where more than the limit was taken.
    pub fn next<H: Shelf>(&mut self, shelf: &mut H) -> Result<Line, Failed>
        requires taken { H.taken shelf.old ≡ self.old.taken }
        requires goes_on { self.old.ended ≡ false }
        ensures answers { IfOk result (λ line. Answers self.old (H.rest shelf.old) line self.new (H.rest shelf.new)) }
        ensures counts { IfOk result (λ _. Counts self.old (H.rest shelf.old) self.new (H.rest shelf.new)) }
        ensures over { (result ≡ Ok Line.Over) ↔ (self.new.max < self.new.taken) }
        ensures short { IfOk result (λ line. GivesShort line self.new) }
        ensures none { OnErr result (self.new.given ≡ []) }
        ensures some { IfOk result (λ line. TakesSome self.old line self.new) }
        ensures ended { self.new.ended ≡ ends result }
        ensures limits { (self.new.longest ≡ self.old.longest) × (self.new.max ≡ self.old.max) }
        ensures taken { H.taken shelf.new ≡ self.new.taken }
        ensures within { self.new.taken ≤ self.new.max + 65_536 }
        ensures failed { OnErr result (Rose (H.faults shelf.old) (H.faults shelf.new)) }
        ensures files { H.files shelf.new ≡ H.files shelf.old }
        ensures later { H.faults shelf.old ≤ H.faults shelf.new }
    {
        match feed_after(self.buffer.held(), 0) {
            Some(count) => Ok(self.give(count, false)),
            None => self.read_on(shelf),
        }
    }

    // Reads on to the end of a line of which no line feed is held.
    fn read_on<H: Shelf>(&mut self, shelf: &mut H) -> Result<Line, Failed>
        requires taken { H.taken shelf.old ≡ self.old.taken }
        requires goes_on { self.old.ended ≡ false }
        requires no_feed { has_feed self.old.held ≡ false }
        ensures answers { IfOk result (λ line. Answers self.old (H.rest shelf.old) line self.new (H.rest shelf.new)) }
        ensures counts { IfOk result (λ _. Counts self.old (H.rest shelf.old) self.new (H.rest shelf.new)) }
        ensures over { (result ≡ Ok Line.Over) ↔ (self.new.max < self.new.taken) }
        ensures short { IfOk result (λ line. GivesShort line self.new) }
        ensures none { OnErr result (self.new.given ≡ []) }
        ensures some { IfOk result (λ line. TakesSome self.old line self.new) }
        ensures ended { self.new.ended ≡ ends result }
        ensures limits { (self.new.longest ≡ self.old.longest) × (self.new.max ≡ self.old.max) }
        ensures taken { H.taken shelf.new ≡ self.new.taken }
        ensures within { self.new.taken ≤ self.new.max + 65_536 }
        ensures failed { OnErr result (Rose (H.faults shelf.old) (H.faults shelf.new)) }
        ensures files { H.files shelf.new ≡ H.files shelf.old }
        ensures later { H.faults shelf.old ≤ H.faults shelf.new }
    {
        let mut long = false;
        loop {
            long = self.make_room(long);
            let known = self.buffer.held().len();
            let count = self.read(shelf)?;
            if self.taken > self.max {
                return Ok(Line::Over);
            }
            if count == 0 {
                return Ok(self.give_rest(long));
            }
            if let Some(count) = feed_after(self.buffer.held(), known) {
                return Ok(self.give(count, long));
            }
        }
    }

    // Drops what is held of a line that is too long, and tells whether it is.
    fn make_room(&mut self, long: bool) -> bool
        ensures long { result ≡ (long || nat_lt self.old.longest (length self.old.held)) }
        ensures held { self.new.held ≡ (if result then [] else self.old.held) }
        ensures same { IsSame self.old self.new }
    {
        let long = long || self.buffer.held().len() > self.longest as usize;
        if long {
            self.buffer.clear();
        }
        long
    }

    // Takes a further piece. Reading has ended where it failed, at the end of the file, and past the limit.
    fn read<H: Shelf>(&mut self, shelf: &mut H) -> Result<usize, Failed>
        requires goes_on { self.old.ended ≡ false }
        requires room { length self.old.held ≤ self.old.longest }
        ensures piece { IfOk result (λ count. TakesPiece self.old.held self.new.held (H.rest shelf.old) (H.rest shelf.new) count) }
        ensures end { IfOk result (λ count. count ≡ 0 → IsAtEnd (H.rest shelf.new)) }
        ensures given { self.new.given ≡ [] }
        ensures taken { MatchResult result (λ count. (H.taken shelf.new ≡ H.taken shelf.old + count) × (self.new.taken ≡ self.old.taken + count)) (λ _. (H.taken shelf.new ≡ H.taken shelf.old) × (self.new.taken ≡ self.old.taken)) }
        ensures limits { (self.new.longest ≡ self.old.longest) × (self.new.max ≡ self.old.max) }
        ensures ended { MatchResult result (λ count. self.new.ended ≡ (nat_lt self.new.max self.new.taken || (count == 0))) (λ _. self.new.ended ≡ true) }
        ensures within { self.old.taken ≤ self.old.max }
        ensures files { H.files shelf.new ≡ H.files shelf.old }
        ensures cause { HasCause (H.faults shelf.old) (H.faults shelf.new) result }
    {
        match self.buffer.read(shelf) {
            Ok(count) => {
                self.taken += count as u64;
                self.ended = self.taken > self.max || count == 0;
                Ok(count)
            }
            Err(failed) => {
                self.ended = true;
                Err(failed)
            }
        }
    }

    // Gives what is left of the file, where a line may have as many bytes.
    fn give_rest(&mut self, long: bool) -> Line
        ensures line { result ≡ Line.Rest long }
        ensures given { self.new.given ≡ (if long then [] else self.old.held) }
        ensures held { self.new.held ≡ [] }
        ensures same { IsSame self.old self.new }
    {
        if long {
            self.buffer.clear();
        } else {
            self.buffer.give_all();
        }
        Line::Rest { long }
    }

    // Gives the first bytes, and drops the line feed behind them; none, where they are too many.
    fn give(&mut self, count: usize, long: bool) -> Line
        requires { count < length self.old.held }
        ensures line { result ≡ (if long || nat_lt self.old.longest count then Line.Long else Line.Whole) }
        ensures given { self.new.given ≡ (if long || nat_lt self.old.longest count then [] else take count self.old.held) }
        ensures held { self.new.held ≡ drop (count + 1) self.old.held }
        ensures same { IsSame self.old self.new }
    {
        if long || count > self.longest as usize {
            self.buffer.skip(count);
            Line::Long
        } else {
            self.buffer.give(count);
            Line::Whole
        }
    }
}
