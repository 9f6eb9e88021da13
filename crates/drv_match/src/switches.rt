//! The switches of a line, and which of these a pattern hits.

// In clauses: `IsOrder names order` says that the order is by name, then by place.
ghost use Rattle.drv_match.specs.Code.Indexed.{AreNamed};
ghost use Rattle.drv_match.specs.Matching.{IsNextHit, any_hits, hidden_by, hits, is_broad};
ghost use Rattle.drv_match.specs.Matching.{is_any_hit, is_hit, is_live, name_at};
ghost use Rattle.drv_match.specs.Order.{IsBlock, IsOrder};
ghost use Rattle.std.specs.List.{list_any};
ghost use Rattle.std.specs.Prelude.{◌≡◌, ◌<◌, ◌&&◌, ◌||◌, All, IfOk, List, false, get_or};
ghost use Rattle.std.specs.Prelude.{drop, length, map, nat_lt, not, ℕ};

use crate::hidden::Hidden;
use crate::liveness::live_flags;
use crate::names::Names;
use crate::pattern::Pattern;
use crate::sorting::{block_of, places_by_name};
use drv_args::Switch;
use drv_words::Listing;
use std::alloc::{AllocError, Global};
use std::marker::Model;

/// The switches of a command line, which are borrowed. Contracts see the list of their names in
/// order.
#[derive(Drop)]
pub struct Switches<'a> {
    names: Names<'a>,
    /// All places, by name, then by place.
    order: Vec<usize>,
    /// For each switch, whether no later one cancels it.
    live: Vec<bool>,
}

impl<'a> Model for Switches<'a> {
    ghost use Rattle.drv_match.specs.Code.Indexed.{IsIndex};
    ghost use Rattle.std.specs.Prelude.{List, ℕ};

    ghost Value = { List (List ℕ) };

    ghost view = { λ s. s.names };

    ghost invariant = { λ s. IsIndex s.names s.order.items s.live.items };
}

impl<'a> Switches<'a> {
    /// The switches of a line, indexed for look-ups.
    pub fn new(alloc: Global, switches: &'a [Switch]) -> Result<Switches<'a>, AllocError>
        ensures { IfOk result (λ made. made ≡ map (λ switch. switch.name) switches.now) }
    {
        let names = Names::of(switches);
        let order = places_by_name(alloc, &names)?;
        let live = live_flags(alloc, &names, &order)?;
        Ok(Switches { names, order, live })
    }

    /// The number of switches of the line.
    pub fn len(&self) -> usize
        ensures { result ≡ length self.now }
    {
        self.names.len()
    }

    /// The name of the switch at this place, without its first `-`.
    pub fn name(&self, i: usize) -> &'a [u8]
        requires { i < length self.now }
        ensures { result.now ≡ name_at self.now i }
    {
        self.names.get(i)
    }

    /// The name of the switch at this place, without its first `size` bytes.
    pub fn rest(&self, i: usize, size: usize) -> &'a [u8]
        requires { i < length self.now }
        ensures { result.now ≡ drop size (name_at self.now i) }
    {
        let name = self.names.get(i);
        if size <= name.len() {
            &name[size..]
        } else {
            &[]
        }
    }

    /// Whether no later switch cancels the one at this place.
    pub fn live(&self, i: usize) -> bool
        requires { i < length self.now }
        ensures { result ≡ is_live self.now i }
    {
        self.live[i]
    }

    /// All places, by name, then by place.
    pub fn order(&self) -> &[usize]
        ensures { IsOrder self.now result.now }
    {
        self.order.as_slice()
    }

    /// The block that a pattern names in the order: its start, and the end after it.
    pub fn block(&self, pattern: &Pattern<'_>) -> (usize, usize)
        ensures { (order : List ℕ) → IsOrder self.now order
            → IsBlock self.now order pattern.now result.0 result.1 }
    {
        block_of(&self.names, &self.order, pattern)
    }

    /// The places of the switches that a pattern hits, in order.
    pub fn hits(
        &self,
        alloc: Global,
        pattern: &Pattern<'_>,
        hidden: &Hidden,
    ) -> Result<Listing<usize>, AllocError>
        ensures { IfOk result (λ places. places ≡ hits self.now hidden.now pattern.now) }
    {
        let named = self.named_places(pattern);
        let mut places = Vec::new(alloc);
        for place in named {
            if self.counts(pattern, hidden, *place) {
                places.push(*place)?;
            }
        }
        places.sort_unstable();
        Ok(Listing::from_vec(places))
    }

    /// The places of the switches that one of these patterns hits, in order.
    pub fn any_hits(
        &self,
        alloc: Global,
        patterns: &[Pattern<'_>],
        hidden: &Hidden,
    ) -> Result<Listing<usize>, AllocError>
        ensures places { IfOk result
            (λ places. places ≡ any_hits self.now hidden.now patterns.now) }
        ensures within { IfOk result (λ places. All (λ place. place < length self.now) places) }
    {
        if let [only] = patterns {
            return self.hits(alloc, only, hidden);
        }
        // Most patterns hit no switch, which their places by name tell.
        if !self.have_hits(patterns, hidden) {
            return Ok(Listing::new(alloc));
        }
        let mut places = Vec::new(alloc);
        for place in 0..self.len() {
            if !self.is_any_hit(patterns, hidden, place) {
                continue;
            }
            places.push(place)?;
        }
        Ok(Listing::from_vec(places))
    }

    /// The first switch from a place on that a pattern hits, if there is one.
    #[tactic(auto, using(crate::proofs::LineSearch::next_itself, crate::proofs::LineSearch::next_none))]
    pub fn next_hit(&self, pattern: &Pattern<'_>, hidden: &Hidden, from: usize) -> Option<usize>
        ensures { IsNextHit self.now hidden.now pattern.now from result }
    {
        // Hits often follow one another, and then nothing is looked up by name.
        if from < self.len() && self.is_hit(pattern, hidden, from) {
            return Some(from);
        }
        // Most patterns hit no switch, which their places by name tell.
        if !self.has_hit(pattern, hidden) {
            return None;
        }
        self.next_on_line(pattern, hidden, from)
    }

    /// Whether a pattern hits any switch.
    pub fn has_hit(&self, pattern: &Pattern<'_>, hidden: &Hidden) -> bool
        ensures { result ≡ nat_lt 0 (length (hits self.now hidden.now pattern.now)) }
    {
        let named = self.named_places(pattern);
        named
            .iter()
            .any(|place| self.counts(pattern, hidden, *place))
    }

    /// Whether a pattern hits the switch at this place: the pattern names it, it isn't hidden, and
    /// it is live unless the pattern is broad.
    pub fn is_hit(&self, pattern: &Pattern<'_>, hidden: &Hidden, i: usize) -> bool
        requires { i < length self.now }
        ensures { result ≡ is_hit self.now hidden.now pattern.now i }
    {
        !hidden.contains(i)
            && pattern.is_named(self.name(i))
            && (pattern.is_broad() || self.live(i))
    }

    /// Hides every switch that a pattern names, live or not.
    pub fn hide(&self, pattern: &Pattern<'_>, hidden: &mut Hidden)
        ensures { hidden.new ≡ hidden_by pattern.now self.now hidden.old }
    {
        let named = self.named_places(pattern);
        for place in named {
            hidden.add(*place);
        }
    }

    /// Whether one of these patterns hits any switch.
    fn have_hits(&self, patterns: &[Pattern<'_>], hidden: &Hidden) -> bool
        ensures { result ≡ list_any
            (λ pattern. nat_lt 0 (length (hits self.now hidden.now pattern))) patterns.now }
    {
        patterns.iter().any(|pattern| self.has_hit(pattern, hidden))
    }

    /// Whether one of these patterns hits the switch at this place.
    fn is_any_hit(&self, patterns: &[Pattern<'_>], hidden: &Hidden, i: usize) -> bool
        requires { i < length self.now }
        ensures { result ≡ is_any_hit self.now hidden.now patterns.now i }
    {
        patterns
            .iter()
            .any(|pattern| self.is_hit(pattern, hidden, i))
    }

    /// The first place of a hit from one place on, in the order of the line.
    fn next_on_line(&self, pattern: &Pattern<'_>, hidden: &Hidden, from: usize) -> Option<usize>
        ensures { IsNextHit self.now hidden.now pattern.now from result }
    {
        (from..self.len()).find(|i| self.is_hit(pattern, hidden, *i))
    }

    /// The places that a pattern names, by name, then by place.
    fn named_places(&self, pattern: &Pattern<'_>) -> &[usize]
        ensures { AreNamed self.now pattern.now result.now }
    {
        let (start, end) = self.block(pattern);
        &self.order()[start..end]
    }

    /// Whether a switch that the pattern names is hit: it isn't hidden, and it is live or the
    /// pattern is broad.
    #[inline(always)]
    fn counts(&self, pattern: &Pattern<'_>, hidden: &Hidden, i: usize) -> bool
        requires { i < length self.now }
        ensures { result ≡ (not (get_or hidden.now i false)
            && (is_broad pattern.now || is_live self.now i)) }
    {
        !hidden.contains(i) && (pattern.is_broad() || self.live(i))
    }
}
