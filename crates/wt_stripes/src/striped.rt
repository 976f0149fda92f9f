// A value behind a main lock, and stripes by which threads read it beside each other.
//
//   closed:  main ──► value                         reads and changes take the main lock
//   open:    main ──► value ◄── each of 4 stripes   a reader takes the lock of its stripe
//
// A thread that holds a stripe's lock waits for no other lock. So locks are taken in this order:
// the main one, then the stripes'.
//
// All locks lie in one list, so that the type of the value stands in theirs once: what the prover
// computes with a type grows with each place in which the value's own type stands.
use crate::guards::{Owner, ReadGuard, WriteGuard};
use crate::hold::hold;
use crossbeam_utils::CachePadded;
use std::alloc::{AllocError, Global};
use std::sync::atomic::{AtomicBool, Ordering};
use std::sync::{Arc, Mutex, Wait};

// How many stripes there are. No source sets it.
const STRIPES: usize = 4;

// The place of the main lock. The stripes' are before it.
const MAIN: usize = STRIPES;

// After how many reads with no change between them the next read opens the stripes. Ours: to open and
// close them costs as much as some ten reads, so with 8 a cache that is changed all the time pays for
// stripes that hardly anybody uses.
const READS: u32 = 32;

/// A value that threads read beside each other, or that one of them changes.
///
/// It is a lock with a bias for readers. At first readers and those who change the value take turns
/// at one lock, the main one. After 32 reads with no change between them the next read opens
/// four stripes, each with a lock of its own and an owner of the value. From then on a reader takes
/// the lock of its stripe alone, and readers at different stripes write no memory that they share.
/// A change takes the main lock and closes the stripes.
///
/// A thread that has one of its guards must not ask for another one: it would wait for itself.
///
/// It has the size of a pointer: the locks are in memory of their own.
#[derive(Drop)]
pub struct Striped<T> {
    locks: Box<Locks<T>>,
}

#[derive(Drop)]
struct Locks<T> {
    all: [Lock<T>; STRIPES + 1],
    // Whether the stripes are open. It changes under the main lock alone. To a reader it is a hint:
    // what counts is whether its stripe has an owner.
    is_open: AtomicBool,
}

type Lock<T> = CachePadded<Mutex<Owner<T>>>;

// A lock with this owner.
fn lock_of<T>(value: Option<Arc<Box<T>>>) -> Lock<T> {
    CachePadded::new(Mutex::new(Owner { value, reads: 0 }))
}

impl<T: Drop> Striped<T> {
    /// Puts the value behind its lock. Takes memory three times: for the value, for its owners'
    /// count, and for the locks. If it is refused, the value is dropped. O(1).
    pub fn new(alloc: Global, value: T) -> Result<Striped<T>, AllocError> {
        let value = Arc::new(alloc, Box::new(alloc, value)?)?;
        let locks = Locks {
            all: [
                lock_of(None),
                lock_of(None),
                lock_of(None),
                lock_of(None),
                lock_of(Some(value)),
            ],
            is_open: AtomicBool::new(false),
        };
        Ok(Striped {
            locks: Box::new(alloc, locks)?,
        })
    }

    /// Waits until nobody has the value, and takes it.
    ///
    /// Takes the main lock, and for a moment each stripe's if they are open. Takes no memory. O(1).
    /// Not promised: that it returns, and that threads get the value in the order in which they
    /// asked.
    #[inline(always)]
    pub fn write<R: Wait>(&self, rt: &R) -> WriteGuard<'_, T> {
        let mut main = hold(rt, &self.locks.all[MAIN]);
        main.reads = 0;
        if self.locks.is_open.load(Ordering::SeqCst) {
            self.close(rt);
            self.locks.is_open.store(false, Ordering::SeqCst);
        }
        WriteGuard { main }
    }

    /// Waits until nobody changes the value, and reads it by this stripe, or by that of its
    /// remainder by 4. Readers who use different stripes don't wait for each other while these are
    /// open.
    ///
    /// Takes one lock: the stripe's, or else the main one. The read that opens the stripes takes
    /// each stripe's for a moment too. Takes no memory. O(1). Not promised: that it returns, and
    /// that no two calls wait for each other.
    #[inline(always)]
    pub fn read<R: Wait>(&self, rt: &R, stripe: usize) -> ReadGuard<'_, T> {
        if self.locks.is_open.load(Ordering::SeqCst) {
            if let Some(lock) = self.locks.all[stripe % STRIPES].try_lock() {
                if let Some(guard) = ReadGuard::of(lock) {
                    return guard;
                }
            }
        }
        self.read_main(rt)
    }

    // Reads by the main lock, whose owner is always there. The types can't say so: if it weren't,
    // this would never return.
    #[inline(always)]
    fn read_main<R: Wait>(&self, rt: &R) -> ReadGuard<'_, T> {
        let mut main = hold(rt, &self.locks.all[MAIN]);
        if main.reads < READS {
            main.reads += 1;
        } else if !self.locks.is_open.load(Ordering::SeqCst) {
            self.open(rt, &main.value);
            self.locks.is_open.store(true, Ordering::SeqCst);
        }
        match ReadGuard::of(main) {
            Some(guard) => return guard,
            None => {}
        }
        for _ in rt.forever() {}
        unreachable!()
    }

    /// Takes the value out of its lock. Nobody else has it any more, so this waits for nobody. The
    /// types can't say so: if somebody had it, this would never return. O(1).
    pub fn into_inner<R: Wait>(self, rt: &R) -> T {
        let Striped { locks } = self;
        let Locks { all, is_open: _ } = Box::into_inner(locks);
        let [zero, one, two, three, main] = all;
        drop((zero, one, two, three));
        match main.into_inner().into_inner().value {
            Some(owner) => match Arc::into_inner(owner) {
                Some(value) => return Box::into_inner(value),
                None => {}
            },
            None => {}
        }
        for _ in rt.forever() {}
        unreachable!()
    }

    // Gives each stripe an owner of the value.
    fn open<R: Wait>(&self, rt: &R, value: &Option<Arc<Box<T>>>) {
        let Some(value) = value else {
            return;
        };
        for stripe in self.locks.all[..STRIPES].iter() {
            hold(rt, stripe).value = Arc::try_clone(value).ok();
        }
    }

    // Takes the stripes' owners away, each when its reader is done.
    fn close<R: Wait>(&self, rt: &R) {
        for stripe in self.locks.all[..STRIPES].iter() {
            hold(rt, stripe).value = None;
        }
    }
}
