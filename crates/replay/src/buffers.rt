// A call that writes into a buffer, beside what it is to return and to leave there.

// Whether the call, lent so many places at the start of a buffer, returns another number or leaves another buffer than these.
pub fn differs<T: PartialEq, F: Fn(&mut [T]) -> u64>(
    call: &F,
    buffer: &mut [T],
    lent: usize,
    returned: u64,
    left: &[T],
) -> bool
    requires { F.IsAlwaysCallable call.now }
{
    let Some(places) = buffer.get_mut(..lent) else {
        return true;
    };
    call(places) != returned || *buffer != *left
}

// Puts a value into a buffer that has its place.
pub fn put<T: Copy>(buffer: &mut [T], at: usize, value: T) {
    if let Some(place) = buffer.get_mut(at) {
        *place = value;
    }
}
