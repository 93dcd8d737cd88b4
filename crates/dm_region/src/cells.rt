//! A block of memory, like Rust's `[MaybeUninit<T>]`: a row of places, each empty or holding a value. All functions
//! that follow a raw pointer are here.
ghost use Rattle.std.specs.Prelude.{◌≡◌, ℕ, ◌<◌, ◌≤◌, List, Option, Some, None, map, length, take, drop, replicate, get_or, slice_set, IfOk, ⊤};
ghost use Rattle.std.specs.Borrow.{sem, u8};
ghost use Rattle.std.specs.Vec.Ownership.{FitsInBlock};
ghost use base.Fml.{ftrue};
ghost use denote.RawPtr.{Ptr};
ghost use Rattle.dm_region.specs.Ends.{lends_ends};
ghost use Rattle.dm_region.specs.inner.Places.{IsRun, IsFilled};
ghost use Rattle.dm_region.specs.inner.Ownership.{cells_own, cells_lent, deed_owns};

use std::alloc::{AllocError, Allocator};
use std::marker::{Model, PhantomData, Send, Sync};
use std::mem::{align_of, size_of};
use std::slice;

/// Pointer to the first place of a block. It owns nothing.
pub struct Base<T> {
    ptr: *mut T,
}

impl<T> Clone for Base<T> {
    ghost is_clone = { λ x y. y ≡ x };

    ghost is_infallible = { λ _. ⊤ };

    fn clone(&self) -> Result<Base<T>, AllocError> {
        Ok(*self)
    }
}

impl<T> Copy for Base<T> {}

unsafe impl<T> Send for Base<T> {}

unsafe impl<T> Sync for Base<T> {}

/// The owner of a block's places, from the address `at` on. It takes no space: its holder keeps the pointer and the
/// number of places.
pub struct Cells<T> {
    mark: PhantomData<*const T>,
    ghost at: { Ptr },
    ghost slots: { List (Option T) },
}

impl<T> Model for Cells<T> {
    ghost also_owns = { λ c. cells_own T.row c.at c.slots };

    ghost also_shares = { λ c _ κ. cells_lent T.row c.at c.slots κ };
}

unsafe impl<T: Send> Send for Cells<T> {}

unsafe impl<T: Sync> Sync for Cells<T> {}

/// The right to give the block of `len` places at `at` back to `alloc`. It takes no space.
pub struct Deed<T, A: Allocator> {
    mark: PhantomData<*const (T, A)>,
    ghost at: { Ptr },
    ghost len: { ℕ },
    ghost alloc: { A },
}

impl<T, A: Allocator> Model for Deed<T, A> {
    ghost also_owns = { λ d. deed_owns T.row (A.dealloc_token d.alloc) d.at d.len };

    ghost also_shares = { λ _ _ _. ftrue };
}

unsafe impl<T, A: Allocator + Send> Send for Deed<T, A> {}

// A `&Deed` holds nothing, so threads may share it.
unsafe impl<T, A: Allocator> Sync for Deed<T, A> {}

/// Allocates a block of `len` empty places from `alloc`: returns where it begins, the owner of its places, and the
/// right to give it back.
///
/// # Errors
///
/// `AllocError` if `alloc` has no memory.
pub(crate) fn allocate<T, A: Allocator>(
    alloc: &A,
    len: usize,
) -> Result<(Base<T>, Cells<T>, Deed<T, A>), AllocError>
    requires { FitsInBlock T.row len }
    ensures { IfOk result (λ r. (r.1.at ≡ r.0.ptr) × (r.1.slots ≡ replicate len None) × (r.2.at ≡ r.0.ptr) ×
        (r.2.len ≡ len) × (r.2.alloc ≡ alloc.now)) }
{
    match alloc.allocate(len * size_of::<T>(), align_of::<T>()) {
        Ok(block) => {
            let base = Base {
                ptr: block as *mut T,
            };
            Ok((
                base,
                Cells { mark: PhantomData },
                Deed { mark: PhantomData },
            ))
        }
        Err(error) => Err(error),
    }
}

/// Gives the block of `len` places at `base` back to `alloc`, which allocated it. All its places must be empty.
pub(crate) fn deallocate<T, A: Allocator>(
    alloc: &A,
    base: Base<T>,
    len: usize,
    cells: Cells<T>,
    deed: Deed<T, A>,
)
    requires { (cells.at ≡ base.ptr) × (cells.slots ≡ replicate len None) × (deed.at ≡ base.ptr) × (deed.len
        ≡ len) × (deed.alloc ≡ alloc.now) }
{
    let Cells { mark: _ } = cells;
    let Deed { mark: _ } = deed;
    unsafe {
        alloc.deallocate(base.ptr as *mut u8, len * size_of::<T>(), align_of::<T>());
    }
}

/// The first `len` bytes of a slice, such as a part of a region, and those from byte `other` on, lent at once to be
/// written. The bytes between the two stay as they are.
pub fn ends_mut(bytes: &mut [u8], len: usize, other: usize) -> (&mut [u8], &mut [u8])
    requires { (len ≤ other) × (other ≤ length bytes.old) }
    ensures* writes_back { sem 𝓛 (lends_ends u8 bytes.entry len other result) }
    ensures ends { (result.0.now ≡ take len bytes.old) × (result.1.now ≡ drop other bytes.old) }
{
    let count = bytes.len();
    let first = bytes.as_mut_ptr();
    unsafe {
        (
            slice::from_raw_parts_mut(first, len),
            slice::from_raw_parts_mut(first.add(other), count - other),
        )
    }
}

impl<T> Cells<T> {
    ghost use Rattle.dm_region.specs.inner.Lends.{lends_run};

    /// Puts `item` into the empty place `index`. The other places stay as they are.
    pub(crate) fn write(&mut self, base: Base<T>, index: usize, item: T)
        requires { (base.ptr ≡ self.old.at) × (index < length self.old.slots) × (get_or self.old.slots index None
            ≡ None) }
        ensures { (self.new.at ≡ self.old.at) × (self.new.slots ≡ slice_set self.old.slots index (Some item)) }
    {
        unsafe { base.ptr.add(index).write(item) }
    }

    /// Takes the value out of the place `index`, which is empty afterwards. The other places stay as they are.
    pub(crate) fn read(&mut self, base: Base<T>, index: usize) -> T
        requires { (base.ptr ≡ self.old.at) × IsFilled self.old.slots index }
        ensures value { get_or self.old.slots index None ≡ Some result }
        ensures slots { (self.new.at ≡ self.old.at) × (self.new.slots ≡ slice_set self.old.slots index None) }
    {
        unsafe { base.ptr.add(index).read() }
    }

    /// The `len` values from place `from` on; none of these places may be empty.
    pub(crate) fn slice(&self, base: Base<T>, from: usize, len: usize) -> &[T]
        requires { (base.ptr ≡ self.now.at) × IsRun self.now.slots from len }
        ensures { take len (drop from self.now.slots) ≡ map Some result.now }
    {
        unsafe { slice::from_raw_parts(base.ptr.add(from), len) }
    }

    /// The `len` values from place `from` on, lent to be written; none of these places may be empty.
    pub(crate) fn slice_mut(&mut self, base: Base<T>, from: usize, len: usize) -> &mut [T]
        requires { (base.ptr ≡ self.old.at) × IsRun self.old.slots from len }
        ensures* writes_back { sem 𝓛 (lends_run T.row self.entry from len result) }
        ensures value { take len (drop from self.old.slots) ≡ map Some result.now }
    {
        unsafe { slice::from_raw_parts_mut(base.ptr.add(from), len) }
    }
}
