// The limits of every device.
ghost use Rattle.std.specs.Prelude.{◌≡◌};
ghost use Rattle.devices.specs.Limits.{within_limits};

// Whether a device may have so many slots and so long a longest row.
pub fn within_limits(slots: usize, longest: usize) -> bool
    ensures { result ≡ within_limits slots longest }
{
    (1..=64).contains(&slots) && (16..=1000).contains(&longest)
}
