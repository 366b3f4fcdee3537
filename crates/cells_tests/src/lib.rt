// Tests of the cell stores, in a crate of their own since a crate with tests is proved twice. Those of the free list stand here
// too, so that its calls and those of the other stores are one set: a module of tests is seen in its own crate alone.
#![tactic(auto)]

#[cfg(test)]
mod calls;
#[cfg(test)]
mod lent;
#[cfg(test)]
mod pool;
#[cfg(test)]
mod quota;
