// The bytes of a laying plan: k, n, how many sections it has, and an entry for each: its offset, its length and, in a new record, its rail.
#![tactic(auto)]

ghost use Rattle.std.specs.Prelude.{◌≡◌, true, false, ◌<◌, List, MatchOption, drop};
ghost use Rattle.theory.specs.Plans.{Section, torn, sections, section_count, entry_size, nth_s, rail_of};
ghost use Rattle.std.specs.Iterator.{YieldsFirstBy, item_count};
ghost use Rattle.sections.specs.Read.{section_of};

use std::marker::Model;

// Where the count stands, bytes before the entries, and how many sections there may be.
const COUNT: usize = 2;

const HEAD: usize = 4;

const SECTIONS: u64 = 500;

// Bytes of an offset or a length, of the pair that is an old record's entry, and of a new record's, with the rail.
const NUMBER: usize = 8;

const PAIR: usize = 16;

const RAILED: usize = 18;

// Where a section begins, its length, and the rail written with it, 0 in an old record.
#[derive(Clone, Copy)]
pub struct Section {
    pub offset: u64,
    pub long: u64,
    pub rail: u64,
}

// The bytes of a plan that is not torn.
#[derive(Clone, Copy)]
pub struct Plan<'a> {
    bytes: &'a [u8],
    ghost whole: { torn bytes.now ≡ false },
}

impl<'a> Plan<'a> {
    // The plan of these bytes; none under 4 bytes, of too many sections, or with a total that fits neither record.
    pub fn new(bytes: &'a [u8]) -> Option<Plan<'a>>
        ensures { MatchOption result (torn bytes.now ≡ true) (λ p. p.bytes.now ≡ bytes.now) }
    {
        if bytes.len() < HEAD {
            return None;
        }
        let count = numbers::get::<2>(bytes, COUNT);
        if SECTIONS < count {
            return None;
        }
        let entries = bytes.len() - HEAD;
        if entries != PAIR * count as usize && entries != RAILED * count as usize {
            return None;
        }
        Some(Plan { bytes })
    }

    // How many sections it has.
    pub fn count(&self) -> u64
        ensures { result ≡ section_count self.now.bytes.now }
    {
        numbers::get::<2>(self.bytes, COUNT)
    }

    // Bytes of an entry: the total tells which record it is.
    #[tactic(auto, using(theory::proofs::Records::size_of_lem))]
    fn entry_size(&self) -> usize
        ensures { result ≡ entry_size self.now.bytes.now }
    {
        if self.bytes.len() == HEAD + PAIR * self.count() as usize {
            return PAIR;
        }
        RAILED
    }

    // Section i.
    #[tactic(auto, using(crate::proofs::Entries::entry_inside))]
    pub fn section_at(&self, i: u64) -> Section
        requires { i < section_count self.now.bytes.now }
        ensures { section_of result ≡ nth_s (sections self.now.bytes.now) i }
    {
        let size = self.entry_size();
        let at = HEAD + size * i as usize;
        let rail = if size == PAIR {
            0
        } else {
            numbers::get::<2>(self.bytes, at + PAIR)
        };
        Section {
            offset: numbers::get::<8>(self.bytes, at),
            long: numbers::get::<8>(self.bytes, at + NUMBER),
            rail,
        }
    }

    // The rail that is answered for section i: the one written with it, in an old record the section's own number.
    pub fn rail_of(&self, i: u64) -> u64
        requires { i < section_count self.now.bytes.now }
        ensures { result ≡ rail_of self.now.bytes.now i }
    {
        if self.entry_size() == PAIR {
            return i;
        }
        self.section_at(i).rail
    }

    // The sections, in their order.
    pub fn sections(&self) -> Sections<'a>
        ensures { result ≡ sections self.now.bytes.now }
    {
        Sections {
            plan: *self,
            next: 0,
        }
    }
}

// An iterator over the sections of a plan; its value is the list of those that are left.
#[derive(Drop)]
pub struct Sections<'a> {
    plan: Plan<'a>,
    next: u64,
}

impl<'a> Model for Sections<'a> {
    ghost Value = { List Section };

    ghost view = { λ s. drop s.next (sections s.plan.bytes.now) };
}

impl<'a> Iterator for Sections<'a> {
    type Item = Section;

    ghost next_gives = { YieldsFirstBy section_of (λ s. s) };

    ghost remaining = { item_count (λ s. s) };

    // As a call of its own it makes a walk over a long plan take four times as long.
    #[inline]
    #[tactic(auto, using(theory::proofs::Records::sections_count, theory::proofs::Records::from_section, std::proofs::lemmas::List::drop_all))]
    fn next(&mut self) -> Option<Section> {
        if self.next < self.plan.count() {
            let section = self.plan.section_at(self.next);
            self.next += 1;
            Some(section)
        } else {
            None
        }
    }
}
