use crate::leads::Lead;
use crate::values::Values;
use im_digest::D32;
use std::alloc::Global;
use std::mem;

/// All that is needed to hash records that follow each other: what they say of themselves, the Alh that join the tree up to
/// the last of them, and the values. Nothing rests on it, as nothing rests on `Lead`.
#[derive(Drop)]
pub struct Plan {
    /// What the records say of themselves.
    pub leads: Vec<Lead>,
    /// The Alh that join the tree, those of the first transactions that it lacks.
    pub leaves: Vec<D32>,
    /// The size of the tree with these leaves.
    pub size: u64,
    /// The values.
    pub values: Values,
}

impl Plan {
    /// One of nothing. It takes no memory.
    pub fn empty(alloc: Global) -> Self {
        Plan {
            leads: Vec::new(alloc),
            leaves: Vec::new(alloc),
            size: 0,
            values: Values::empty(alloc),
        }
    }

    /// That of these records, whose leaves join a tree of this size.
    pub fn of(leads: Vec<Lead>, leaves: Vec<D32>, size: u64, values: Values) -> Self {
        let size = size.saturating_add(leaves.len() as u64);
        Plan {
            leads,
            leaves,
            size,
            values,
        }
    }
}

/// Two plans, one behind the other: that of the window that is filled, and that whose leaves join the tree meanwhile.
#[derive(Drop)]
pub struct Plans {
    /// The plan of the window that is filled.
    pub filled: Plan,
    /// The plan behind it.
    pub behind: Plan,
}

impl Plans {
    /// A plan, before whose window none is filled. It takes no memory.
    pub fn first(alloc: Global, plan: Plan) -> Self {
        Plans {
            filled: Plan::empty(alloc),
            behind: plan,
        }
    }

    /// Goes on by one plan.
    pub fn go_on(&mut self, next: Plan) {
        let filled = mem::replace(&mut self.behind, next);
        drop(mem::replace(&mut self.filled, filled));
    }
}
