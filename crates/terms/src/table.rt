//! Tables read and written at a place that may lie behind their end.
ghost use Rattle.std.specs.Prelude.{◌≡◌, slice_index_or, slice_set};

/// The element at a place, or another where there is none.
pub fn at_or<T: Copy>(elements: &[T], place: u8, other: T) -> T
    ensures { result ≡ slice_index_or elements.now place other }
{
    elements.get(usize::from(place)).copied().unwrap_or(other)
}

/// Puts an element at a place, where there is one.
pub fn put<T: Copy>(elements: &mut [T], place: u8, element: T)
    ensures { elements.new ≡ slice_set elements.old place element }
{
    // By index: after a `get_mut` nothing but the length is known.
    let place = usize::from(place);
    if place < elements.len() {
        elements[place] = element;
    }
}
