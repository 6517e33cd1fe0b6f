//! What each CPU has, by its number.

ghost use Rattle.std.specs.Prelude.{◌≡◌, slice_index_or, slice_set};

/// What a CPU has; the default behind the end.
pub(crate) fn at<T: Copy>(list: &[T], cpu: u32, default: T) -> T
    ensures { result ≡ slice_index_or list.now cpu default }
{
    if (cpu as usize) < list.len() {
        list[cpu as usize]
    } else {
        default
    }
}

/// Puts what a CPU has, where it is not behind the end.
pub(crate) fn put<T: Copy>(list: &mut [T], cpu: u32, value: T)
    ensures { list.new ≡ slice_set list.old cpu value }
{
    if (cpu as usize) < list.len() {
        list[cpu as usize] = value;
    }
}
