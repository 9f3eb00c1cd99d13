// The stops by what is known of the fields: one is read at its first visit, where it names a fieldtype lookup at its second too, and then no
// more. By the law of position only stop 5 goes by more than the field; at most four readings are kept for it, of the first fields. A field that
// stops at more, or has no room for them, is read at each visit.
ghost use Rattle.std.specs.Prelude.{◌≡◌, true, ◌&&◌, suc, ◌+◌, ◌*◌, ◌<◌, ◌≤◌, length, get_or, set, ◌==◌, if◌then◌else◌};
ghost use Rattle.pack.specs.Loaded.{lookup_value, pgn_value};
ghost use Rattle.pack.specs.Meaning.{pack_of};
ghost use Rattle.pack.specs.Notation.{◌<ᵇ◌, ◌≤ᵇ◌};
ghost use Rattle.pack.specs.Value.{field_at};
ghost use Rattle.rules.specs.Model.{lookup_ref};
ghost use Rattle.walk.specs.ByPlace.{placed};
ghost use Rattle.walk.specs.Layout.{layout};
ghost use Rattle.walk.specs.StopParts.{Named, OnlyByReading, Collected, Remembered, among, lets_pass};
ghost use Rattle.walk.specs.Stops.{stop_at};

use crate::named::FoundPgn;
use crate::stops::{Stop, judge, names_missing};
use pack::loaded::LookupRef;

// The marks: of a field that stops at no reading; of one whose readings are not kept; of one that names a fieldtype lookup and was visited once.
// Between the first two lie those of fields of which one to four readings are kept. Numbers and no enum: eight names would be turned into the count
// of kept readings and back at each use; an enum that holds the count takes two bytes, and the stack has no 32 KiB more.
const FREE: u8 = 1;

const TOO_MANY: u8 = 6;

const SEEN: u8 = 7;

// What is remembered: a mark for as many fields as a pack can have, and the readings of the first 128 of them, four each. Made once a walk, and lent.
#[derive(Drop)]
pub struct Memory {
    pub marks: [u8; 32768],
    pub bad: [u64; 512],
}

impl Memory {
    // The mark of field k; 0 where there is no room for it.
    fn mark_at(&self, k: u32) -> u8
        ensures { result ≡ get_or self.now.marks k 0 }
    {
        self.marks.get(k as usize).copied().unwrap_or(0)
    }

    // Whether field k is known to stop at no reading.
    pub fn is_free(&self, k: u32) -> bool
        ensures { result ≡ (get_or self.now.marks k 0 == 1) }
    {
        self.mark_at(k) == FREE
    }

    // The reading at place i; 0 where there is none.
    fn value_at(&self, i: usize) -> u64
        ensures { result ≡ get_or self.now.bad i 0 }
    {
        self.bad.get(i).copied().unwrap_or(0)
    }

    // Whether a reading is among the first n that are kept of field k.
    fn is_bad(&self, k: u32, n: usize, reading: u64) -> bool
        requires { n ≤ 4 }
        ensures { result ≡ among self.now.bad (4 * k) n reading }
    {
        let at = 4 * k as usize;
        for j in 0..n {
            if self.value_at(at + j) == reading {
                return true;
            }
        }
        false
    }

    // Whether field k is known not to stop at this reading.
    pub fn lets_pass(&self, k: u32, reading: u64) -> bool
        ensures { result ≡ lets_pass self.now k reading }
    {
        let m = self.mark_at(k);
        m == FREE || (0 < m && m < TOO_MANY && !self.is_bad(k, m as usize - 1, reading))
    }

    // The mark m at field k, if there is room. Not by `get_mut`, which promises nothing of the rest of the array.
    fn mark(&mut self, k: u32, m: u8)
        ensures { self.new ≡ record { marks = set self.old.marks k m; bad = self.old.bad } }
    {
        let at = k as usize;
        if at < self.marks.len() {
            self.marks[at] = m;
        }
    }

    // The reading v at place i, if there is room. Not by `get_mut`, as at `mark`.
    fn put_value(&mut self, i: usize, v: u64)
        ensures { self.new ≡ record { marks = self.old.marks; bad = set self.old.bad i v } }
    {
        if i < self.bad.len() {
            self.bad[i] = v;
        }
    }

    // On a hit the reading v behind the n that are kept from `at` on, and how many there are then. A fifth is counted only.
    fn keep(&mut self, at: usize, n: usize, hit: bool, v: u64) -> usize
        requires { record { few : n ≤ 4; small : at ≤ 17179869180 } }
        ensures { record {
          count : result ≡ (if hit then n + 1 else n);
          marks : self.new.marks ≡ self.old.marks;
          values : self.new.bad ≡ (if hit && (n <ᵇ 4) then set self.old.bad (at + n) v else self.old.bad);
        } }
    {
        if !hit {
            return n;
        }
        if n == 4 {
            return 5;
        }
        self.put_value(at + n, v);
        n + 1
    }

    // The readings for which an entry of a fieldtype lookup names something missing, from `at` on, and how many these are; 5 for more than four.
    fn collect(&mut self, lookup: &LookupRef, at: usize) -> usize
        requires { at ≤ 17179869180 }
        ensures { record {
          marks : self.new.marks ≡ self.old.marks;
          values : Collected (pack_of lookup.now.pack.bytes.now) (lookup_value lookup.now).entries lookup.now.view.entries at
              self.old.bad self.new.bad result;
        } }
    {
        let mut n: usize = 0;
        for e in 0..lookup.view.entries {
            let entry = lookup.entry(e);
            let hit = names_missing(&lookup.pack, entry);
            n = self.keep(at, n, hit, entry.value);
            if 4 < n {
                return 5;
            }
        }
        n
    }

    // The mark of field k, of which n readings were collected, if there was room.
    fn mark_of(&self, n: usize, k: u32) -> u8
        requires { n ≤ 5 }
        ensures { result ≡ (if n == 0 then 1 else (if 4 * k + 4 ≤ᵇ length self.now.bad then n + 1 else 6)) }
    {
        if n == 0 {
            return FREE;
        }
        if 4 * k as usize + 4 <= self.bad.len() {
            return n as u8 + 1;
        }
        TOO_MANY
    }

    // Field k, which stops by its reading alone, is marked; where it names a fieldtype lookup its readings are collected at the second visit.
    fn remember(&mut self, found: &FoundPgn, k: u32, lookup: &Option<LookupRef>)
        requires { record {
          remembered : Remembered (pack_of found.now.pgn.pack.bytes.now) (pgn_value found.now.pgn) self.old;
          named : Named found.now.pgn.pack.bytes.now (lookup_ref (field_at (pgn_value found.now.pgn) k)) lookup.now;
          only : OnlyByReading (pack_of found.now.pgn.pack.bytes.now) (pgn_value found.now.pgn) k;
        } }
        ensures { Remembered (pack_of found.now.pgn.pack.bytes.now) (pgn_value found.now.pgn) self.new }
    {
        let Some(lookup) = lookup else {
            self.mark(k, FREE);
            return;
        };
        let m = self.mark_at(k);
        if m == 0 {
            self.mark(k, SEEN);
            return;
        }
        if m != SEEN {
            return;
        }
        let n = self.collect(lookup, 4 * k as usize);
        let new = self.mark_of(n, k);
        self.mark(k, new);
    }

    // The stop at field k of a PGN, with this reading.
    pub fn stop_at(&mut self, found: &FoundPgn, k: u32, reading: u64) -> Option<Stop>
        requires { record {
          remembered : Remembered (pack_of found.now.pgn.pack.bytes.now) (pgn_value found.now.pgn) self.old;
          field : k < found.now.pgn.view.fields;
        } }
        ensures { record {
          stop : result ≡ stop_at (pack_of found.now.pgn.pack.bytes.now) (pgn_value found.now.pgn)
              (placed (layout (pgn_value found.now.pgn)) (suc k)) k reading;
          remembered : Remembered (pack_of found.now.pgn.pack.bytes.now) (pgn_value found.now.pgn) self.new;
        } }
    {
        if self.lets_pass(k, reading) {
            return None;
        }
        match judge(found, k, reading) {
            Ok(lookup) => {
                self.remember(found, k, &lookup);
                None
            }
            Err(stop) => Some(stop),
        }
    }
}
