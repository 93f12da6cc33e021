// The checker of a certificate, line by line.
ghost use Rattle.clr_cert.specs.Accepts.{claims_of, first_no, lines_no};
ghost use Rattle.clr_cert.specs.Reading.{most_line};
ghost use Rattle.clr_cert.specs.declared.no.No.{No};
ghost use Rattle.clr_check.specs.Standing.{IsClaimOf, IsLine, IsRest, Stands, ended_text, is_end, kept_claims, kind_at_end, no_at, refused};
ghost use Rattle.clr_season.specs.Season.{Season};
ghost use Rattle.std.specs.Prelude.{◌≡◌, ℕ, ◌<◌, List, [], ◌∷◌, ◌++◌, length, Some, None, Err, IfOk, IsErrOf, MatchResult};

use crate::faults::Fault;
use crate::rest::Rest;
use crate::tables::Tables;
use crate::taking::{plain, take_line};
use clr_cert::{Claims, LineBuffer, No, NoKind, Place};
use clr_model::fits;
use clr_rules::Live;
use clr_season::Season;
use std::alloc::{AllocError, Global};
use std::marker::Model;

/// No line has more numbers.
const MOST_NUMBERS: usize = 2001;

// What is wrong with what stands after the last line feed: `all` tells that all lines have come.
fn end_kind(all: bool, rest: Rest) -> Option<NoKind>
    ensures { result ≡ kind_at_end all rest }
{
    match rest {
        Rest::Nothing if all => None,
        Rest::Few | Rest::Many if all => Some(NoKind::Extra),
        Rest::Nothing | Rest::Few => Some(NoKind::Short),
        Rest::Many => Some(NoKind::Form),
    }
}

/// A checker of a season's certificate, which takes line after line. It keeps the path, the multipliers, the entries of two
/// weeks and the totals. It is seen as what it keeps.
#[derive(Drop)]
pub struct Checker<'a> {
    season: &'a Season,
    live: Live,
    key: LineBuffer,
    numbers: Vec<i128>,
    tables: Tables,
    row: u64,
    place: Place,
    no: Option<No>,
}

impl<'a> Model for Checker<'a> {
    ghost use Rattle.clr_check.specs.Standing.{IsReady, Kept};

    ghost Value = { Kept };

    ghost view = { λ c. record { season = c.season.now; row = c.row; place = c.place; tables = c.tables; no = c.no } };

    ghost invariant = { λ c. IsReady c.season.now c.live c.numbers.items c.row c.place c.tables };
}

impl<'a> Checker<'a> {
    /// A checker that was fed no line. It takes all its memory here.
    ///
    /// # Errors
    /// Where memory is wanting.
    pub fn open(alloc: Global, season: &'a Season) -> Result<Checker<'a>, AllocError>
        ensures stands { IfOk result (λ checker. Stands season.now [] checker) }
    {
        let key = LineBuffer::new(alloc)?;
        let numbers = vec![in alloc; 0; MOST_NUMBERS]?;
        let live = Live::build(alloc, season.rules())?;
        let tables = Tables::new(alloc, season, &live)?;
        Ok(Checker {
            season,
            live,
            key,
            numbers,
            tables,
            row: 0,
            place: Place::Head,
            no: None,
        })
    }

    // Whether all lines have come.
    fn is_done(&self) -> bool
        ensures { result ≡ is_end self.now.place }
    {
        matches!(self.place, Place::End)
    }

    // Refuses the next line.
    fn refuse(&mut self, fault: Fault) -> Result<(), No>
        ensures refused { self.new ≡ refused self.old fault }
        ensures answer { result ≡ Err (no_at self.old.row fault) }
    {
        let no = No {
            row: self.row + 1,
            kind: fault.kind,
            left: fault.left,
            right: fault.right,
        };
        self.no = Some(no);
        Err(no)
    }

    /// Takes the next line, without its line feed. It takes no memory.
    ///
    /// # Errors
    /// The fault of the first line that is refused: it isn't the next of the season's certificate, one of its numbers is out
    /// of range, or one of its conditions fails. From then on every call answers it.
    pub fn feed(&mut self, line: &[u8]) -> Result<(), No>
        requires { IsLine line.now }
        ensures stands { (season : Season) (lines : List (List ℕ)) → Stands season lines self.old → Stands season (lines ++ line.now ∷ []) self.new }
        ensures answer { (season : Season) (lines : List (List ℕ)) → Stands season lines self.old →
            MatchResult result (λ _. lines_no season (lines ++ line.now ∷ []) ≡ None) (λ no. lines_no season (lines ++ line.now ∷ []) ≡ Some no) }
        ensures refuses { (no : No) → IsErrOf result no → self.new.no ≡ Some no }
        ensures again { (no : No) → self.old.no ≡ Some no → (result ≡ Err no) × (self.new ≡ self.old) }
    {
        if let Some(no) = self.no {
            return Err(no);
        }
        if self.is_done() {
            return self.refuse(plain(NoKind::Extra));
        }
        let fault = take_line(
            self.season,
            &self.live,
            self.place,
            line,
            &mut self.key,
            &mut self.numbers,
            &mut self.tables,
        );
        match fault {
            Some(fault) => self.refuse(fault),
            None => {
                self.row += 1;
                self.place = self.place.next(self.season, &self.live);
                Ok(())
            }
        }
    }

    /// Takes a line of more bytes than a line may have, whatever they are.
    ///
    /// # Errors
    /// As `feed`: this line is refused, where none before it is.
    pub(crate) fn feed_long(&mut self) -> Result<(), No>
        ensures stands { (season : Season) (lines : List (List ℕ)) (line : List ℕ) → IsLine line → most_line < length line → Stands season lines self.old → Stands season (lines ++ line ∷ []) self.new }
        ensures answer { (season : Season) (lines : List (List ℕ)) (line : List ℕ) → IsLine line → most_line < length line → Stands season lines self.old →
            MatchResult result (λ _. lines_no season (lines ++ line ∷ []) ≡ None) (λ no. lines_no season (lines ++ line ∷ []) ≡ Some no) }
        ensures refuses { (no : No) → IsErrOf result no → self.new.no ≡ Some no }
        ensures again { (no : No) → self.old.no ≡ Some no → (result ≡ Err no) × (self.new ≡ self.old) }
    {
        if let Some(no) = self.no {
            return Err(no);
        }
        if self.is_done() {
            self.refuse(plain(NoKind::Extra))
        } else {
            self.refuse(plain(NoKind::Form))
        }
    }

    // What the lines claim, where all have come.
    fn into_claims(self) -> Claims
        ensures { claims_of result ≡ kept_claims self.entry }
    {
        let has_exact = fits(self.season);
        let tables = self.tables;
        Claims {
            path: tables.path,
            low: tables.low,
            high: tables.high,
            bound: tables.bound,
            exact: if has_exact { Some(tables.exact) } else { None },
        }
    }

    /// Ends the certificate after its last line feed and these bytes: what it claims, where it is accepted.
    ///
    /// # Errors
    /// The first fault of the whole certificate: that of the first line that is refused, or what is wrong at the end.
    pub(crate) fn finish(self, rest: Rest) -> Result<Claims, No>
        ensures answer { (season : Season) (lines : List (List ℕ)) (bytes : List ℕ) → Stands season lines self.entry → IsLine bytes → IsRest rest bytes →
            MatchResult result (IsClaimOf season (ended_text lines ++ bytes)) (λ no. first_no season (ended_text lines ++ bytes) ≡ Some no) }
        ensures again { (no : No) → self.entry.no ≡ Some no → result ≡ Err no }
    {
        if let Some(no) = self.no {
            return Err(no);
        }
        match end_kind(self.is_done(), rest) {
            Some(kind) => Err(No {
                row: self.row + 1,
                kind,
                left: 0,
                right: 0,
            }),
            None => Ok(self.into_claims()),
        }
    }

    /// Ends the certificate after its last line: what it claims, where it is accepted. It takes no memory.
    ///
    /// # Errors
    /// The fault of the first line that is refused; and where none is and lines are missing, that of the first missing line.
    pub fn close(self) -> Result<Claims, No>
        ensures answer { (season : Season) (lines : List (List ℕ)) → Stands season lines self.entry →
            MatchResult result (IsClaimOf season (ended_text lines)) (λ no. first_no season (ended_text lines) ≡ Some no) }
        ensures again { (no : No) → self.entry.no ≡ Some no → result ≡ Err no }
    {
        self.finish(Rest::Nothing)
    }
}
