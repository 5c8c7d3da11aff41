//! Links between the runs that wait to be painted: a ring of all of them, and chains of those with
//! one pen. The first pens have a chain each. Finding a run and taking it out are one step.

use crate::runs::Run;
use crate::scenes::Scene;
use scr_cells::{NoMemory, Pen};
use std::alloc::Global;

// No run.
pub(crate) const NONE: u32 = u32::MAX;

// The greatest number of pens with chains.
const MOST_CHAINS: usize = 16;

// The runs before and after a run.
#[derive(Clone, Copy)]
pub(crate) struct Neighbours {
    pub(crate) before: u32,
    pub(crate) next: u32,
}

impl Neighbours {
    // No neighbours.
    const NONE: Neighbours = Neighbours {
        before: NONE,
        next: NONE,
    };
}

// The neighbours of a run in the ring and in its chain, and the number of the chain.
#[derive(Clone, Copy)]
struct Link {
    around: Neighbours,
    alike: Neighbours,
    chain: u32,
}

// A pen, the first and the last waiting run with it, and whether its runs were painted. The price of
// the turn to it is kept for the pen that it was last asked for.
#[derive(Clone, Copy)]
pub(crate) struct Chain {
    pub(crate) pen: Pen,
    pub(crate) first: u32,
    pub(crate) last: u32,
    pub(crate) is_painted: bool,
    from: Pen,
    turn: u32,
}

// The links of all runs, and the chains of pens.
#[derive(Drop)]
pub(crate) struct Links {
    links: Vec<Link>,
    pub(crate) chains: Vec<Chain>,
}

impl Links {
    // All runs wait. The ring has them in the order of their numbers.
    pub(crate) fn new(alloc: Global, runs: &[Run]) -> Result<Links, NoMemory> {
        let mut made = Links {
            links: Vec::with_capacity(alloc, runs.len())?,
            chains: Vec::with_capacity(alloc, MOST_CHAINS)?,
        };
        let mut before = NONE;
        let mut number = 0u32;
        for run in runs {
            made.add(number, before, run.pen)?;
            before = number;
            number = number.saturating_add(1);
        }
        made.join(before, 0);
        Ok(made)
    }

    // Adds a run, after the previous one in the ring and after the last in the chain of its pen.
    // The run with the next number has to follow.
    fn add(&mut self, number: u32, before: u32, pen: Pen) -> Result<(), NoMemory> {
        let chain = self.chain_with(pen)?;
        let last = self.extend(chain, number);
        let next = number.saturating_add(1);
        self.links.push(Link {
            around: Neighbours { before, next },
            alike: Neighbours {
                before: last,
                next: NONE,
            },
            chain,
        })?;
        self.join_alike(last, number);
        Ok(())
    }

    // The number of a pen's chain, which is begun if there is room for one; otherwise `NONE`.
    fn chain_with(&mut self, pen: Pen) -> Result<u32, NoMemory> {
        let number = self.chain_of(pen);
        if number != NONE || self.chains.len() >= MOST_CHAINS {
            return Ok(number);
        }
        let number = self.chains.len() as u32;
        self.chains.push(Chain {
            pen,
            first: NONE,
            last: NONE,
            is_painted: false,
            from: pen,
            turn: 0,
        })?;
        Ok(number)
    }

    // The number of a pen's chain; `NONE` if it has none.
    fn chain_of(&self, pen: Pen) -> u32 {
        let mut number = 0u32;
        for chain in &self.chains {
            if chain.pen == pen {
                return number;
            }
            number = number.saturating_add(1);
        }
        NONE
    }

    // Appends a run to a chain, and returns the run that was its last before, or `NONE`.
    fn extend(&mut self, chain: u32, number: u32) -> u32 {
        let Some(chain) = self.chains.get_mut(chain as usize) else {
            return NONE;
        };
        let last = chain.last;
        chain.last = number;
        if chain.first == NONE {
            chain.first = number;
        }
        last
    }

    // The first waiting run with a pen; `NONE` if there is none, or the pen has no chain.
    pub(crate) fn first_with(&self, pen: Pen) -> u32 {
        match self.chains.get(self.chain_of(pen) as usize) {
            Some(chain) => chain.first,
            None => NONE,
        }
    }

    // The price of the turn from a pen to that of a run; what was asked for last is known.
    #[inline(always)]
    pub(crate) fn turn(&mut self, scene: &Scene<'_>, from: Pen, run: &Run, number: u32) -> u32 {
        if from == run.pen {
            return 0;
        }
        let chain = self.chain_at(number);
        match self.chains.get_mut(chain as usize) {
            Some(chain) => chain.turn_from(scene, from),
            None => scene.price_of_turn(from, run.pen),
        }
    }

    // The number of a run's chain, or `NONE`.
    #[inline(always)]
    pub(crate) fn chain_at(&self, number: u32) -> u32 {
        match self.links.get(number as usize) {
            Some(link) => link.chain,
            None => NONE,
        }
    }

    // The runs before and after a run in the ring.
    #[inline(always)]
    pub(crate) fn around(&self, number: u32) -> Neighbours {
        match self.links.get(number as usize) {
            Some(link) => link.around,
            None => Neighbours::NONE,
        }
    }

    // The runs before and after a run in its chain.
    #[inline(always)]
    pub(crate) fn alike(&self, number: u32) -> Neighbours {
        match self.links.get(number as usize) {
            Some(link) => link.alike,
            None => Neighbours::NONE,
        }
    }

    // Takes a run out of the ring and its chain. Its own link stays as it is.
    pub(crate) fn remove(&mut self, number: u32) {
        let Some(link) = self.links.get(number as usize).copied() else {
            return;
        };
        self.join(link.around.before, link.around.next);
        self.join_alike(link.alike.before, link.alike.next);
        let Some(chain) = self.chains.get_mut(link.chain as usize) else {
            return;
        };
        if chain.first == number {
            chain.first = link.alike.next;
        }
        if chain.last == number {
            chain.last = link.alike.before;
        }
    }

    // Makes two runs neighbours in the ring.
    fn join(&mut self, before: u32, next: u32) {
        if let Some(link) = self.links.get_mut(before as usize) {
            link.around.next = next;
        }
        if let Some(link) = self.links.get_mut(next as usize) {
            link.around.before = before;
        }
    }

    // Makes two runs neighbours in their chain.
    fn join_alike(&mut self, before: u32, next: u32) {
        if let Some(link) = self.links.get_mut(before as usize) {
            link.alike.next = next;
        }
        if let Some(link) = self.links.get_mut(next as usize) {
            link.alike.before = before;
        }
    }
}

impl Chain {
    // The price of the turn from a pen to its own.
    #[inline(always)]
    fn turn_from(&mut self, scene: &Scene<'_>, from: Pen) -> u32 {
        if self.from != from {
            self.from = from;
            self.turn = scene.price_of_turn(from, self.pen);
        }
        self.turn
    }
}
