//! Work done outside the core.
ghost use Rattle.std.specs.Prelude.{◌≡◌, Some, IfOk};

use leaf_work::{LeafWork, Spin, WorkBrand, WorkValue};
use seq_objects::work::spin;
use std::alloc::{AllocError, Global};
use std::marker::{Model, PhantomData};

/// Work done: the number of a leaf of work, and its value. `B` says what the leaves compute. Contracts see the number.
#[derive(Drop)]
pub struct SpunWith<B: WorkBrand> {
    steps: u32,
    gives: u32,
    of: PhantomData<B>,
}

/// Work done of leaves that spin: a number of steps, and their value.
pub type Spun = SpunWith<Spin>;

impl<B: WorkBrand> Model for SpunWith<B> {
    ghost use Rattle.std.specs.Prelude.{ℕ, ◌≡◌};

    ghost Value = { ℕ };

    ghost view = { λ s. s.steps };

    ghost invariant = { λ s. s.gives ≡ B.work s.steps };
}

impl SpunWith<Spin> {
    /// Does `n` steps of work, in time proportional to `n`.
    ///
    /// Memory: none.
    pub fn of(n: u32) -> Spun
        ensures { result ≡ n }
    {
        SpunWith {
            steps: n,
            gives: spin(n),
            of: PhantomData,
        }
    }
}

impl<B: WorkBrand> SpunWith<B> {
    /// Does the work of the leaf with the number `n`.
    pub fn by<W: LeafWork>(alloc: Global, work: &W, n: u32) -> Result<SpunWith<B>, AllocError>
        requires { W.meaning work.now ≡ B.work }
        ensures { IfOk result (λ spun. spun ≡ n) }
    {
        Ok(SpunWith {
            steps: n,
            gives: work.run(alloc, n)?,
            of: PhantomData,
        })
    }

    /// The number of the leaf; of a leaf that spins it is the number of its steps.
    pub fn number(&self) -> u32
        ensures { result ≡ self.now }
    {
        self.steps
    }

    /// The value of the leaf.
    fn value(&self) -> u32
        ensures { result ≡ B.work self.now }
    {
        self.gives
    }
}

/// The work that a caller has done before a turn, if any.
#[derive(Drop)]
pub(crate) struct Given<B: WorkBrand> {
    spun: Option<SpunWith<B>>,
}

impl<B: WorkBrand> Given<B> {
    /// This work.
    pub(crate) fn of(spun: Option<SpunWith<B>>) -> Given<B>
        ensures { result.spun ≡ spun }
    {
        Given { spun }
    }
}

impl<B: WorkBrand> WorkValue for Given<B> {
    ghost meaning = { λ self. B.work };

    /// It has the value for the number of the work.
    ghost has = { λ self n. self.spun ≡ Some n };

    /// The value of the work that was done.
    fn value(&self, _alloc: Global, n: u32) -> Result<u32, AllocError>
        requires { self.now.spun ≡ Some n }
        ensures { IfOk result (λ value. value ≡ B.work n) }
    {
        match &self.spun {
            Some(spun) => Ok(spun.value()),
            None => unreachable!(),
        }
    }
}
