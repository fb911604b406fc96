//! Lists in which a new item replaces the older one of the same kind.

ghost use Rattle.std.specs.Prelude.{◌≡◌, ◌+◌, ◌<◌, [], IfOk, position};
ghost use Rattle.std.specs.Vec.{vec_len, vec_capacity};
ghost use Rattle.ddt_registrar.specs.Lists.{put_by};

use std::alloc::{AllocError, Global};

/// An item that replaces an older one of the same kind.
pub trait Keyed: Drop {
    /// Whether an item is of the same kind as another.
    ghost same: { Self → Self → Bool };

    ghost use Rattle.std.specs.Prelude.{Bool, ◌≡◌};

    /// Whether two items are of the same kind.
    fn is_same(&self, other: &Self) -> bool
        ensures { result ≡ same self.now other.now };
}

/// The index of the first item of the same kind.
fn place<T: Keyed>(items: &[T], new: &T) -> Option<usize>
    ensures { result ≡ position (λ old. T.same old new.now) items.now }
{
    items.iter().position(|old| old.is_same(new))
}

/// An empty list with room for more items than these two counts together. Fails only if out of memory.
pub fn list_with_room<T>(alloc: Global, count: usize, more: usize) -> Result<Vec<T>, AllocError>
    ensures empty { IfOk result (λ room. room.items ≡ []) }
    ensures room { IfOk result (λ room. count + more < vec_capacity room) }
{
    let Some(taken) = count.checked_add(more) else {
        return Err(AllocError);
    };
    match taken.checked_add(1) {
        Some(len) => Vec::with_capacity(alloc, len),
        None => Err(AllocError),
    }
}

/// Replaces the first item of the same kind, or else moves all items to an empty list with room, and appends the item.
/// Allocates nothing.
pub fn put<T: Keyed>(items: &mut Vec<T>, mut room: Vec<T>, new: T)
    requires empty { room.items ≡ [] }
    requires room { vec_len items.old < vec_capacity room }
    ensures { items.new.items ≡ put_by (λ old. T.same old new) new items.old.items }
{
    match place(items.as_slice(), &new) {
        Some(at) => {
            items[at] = new;
        }
        None => {
            match room.append(items) {
                Ok(()) => {}
                Err(_refused) => unreachable!(),
            }
            room.push_reserved(new);
            *items = room;
        }
    }
}
