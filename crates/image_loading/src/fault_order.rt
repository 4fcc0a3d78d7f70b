//! The first of several faults of an image, and places in its bytes.
ghost use Rattle.std.specs.Prelude.{◌≡◌, ◌+◌, ◌*◌};
ghost use Rattle.image_loading.specs.FaultOrder.{after, fault_at, first_of, is_no_later, order_of, rule, sooner};

use image::ImageFault;

/// The byte that is `count` bytes after a byte, at most the last byte that a fault can name.
pub(crate) fn after(byte: u32, count: usize) -> u32
    ensures { result ≡ after byte count }
{
    match u32::try_from(count) {
        Ok(count) => byte.saturating_add(count),
        Err(_) => u32::MAX,
    }
}

/// The byte after so many elements of one size.
pub(crate) fn after_all(byte: u32, size: usize, count: usize) -> u32
    ensures { result ≡ after byte (size * count) }
{
    after(byte, size.saturating_mul(count))
}

/// The fault of this rule at this byte, if it is broken.
pub(crate) fn rule(number: u8, byte: u32, broken: bool) -> Option<ImageFault>
    ensures { result ≡ first_of (rule number byte broken) }
{
    if broken {
        Some(ImageFault { number, byte })
    } else {
        None
    }
}

fn order_of(fault: ImageFault) -> u64
    ensures { result ≡ order_of fault }
{
    u64::from(fault.byte) * 256 + u64::from(fault.number)
}

/// The one at the lesser byte, and at one byte the one with the lesser number.
pub(crate) fn sooner(a: Option<ImageFault>, b: Option<ImageFault>) -> Option<ImageFault>
    ensures { result ≡ sooner a b }
{
    match (a, b) {
        (None, b) => b,
        (Some(a), None) => Some(a),
        (Some(a), Some(b)) => {
            if order_of(b) < order_of(a) {
                Some(b)
            } else {
                Some(a)
            }
        }
    }
}

/// Whether there is a fault, and it comes no later than that of this rule at this byte.
pub(crate) fn is_no_later(fault: Option<ImageFault>, number: u8, byte: u32) -> bool
    ensures { result ≡ is_no_later fault (fault_at number byte) }
{
    match fault {
        None => false,
        Some(fault) => order_of(fault) <= order_of(ImageFault { number, byte }),
    }
}
