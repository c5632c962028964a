//! Values that are made empty and then filled with copies, so that what is filled owns nothing if memory runs out.
ghost use Rattle.std.specs.Prelude.{◌≡◌, IfOk, IsOk, OnOk, Some};

use rtc_wire::TryCopy;
use std::alloc::AllocError;

/// Puts a copy in place of a value.
pub fn fill<T: TryCopy + Drop>(place: &mut T, value: &T) -> Result<(), AllocError>
    ensures { OnOk result (place.new ≡ value.now) }
{
    *place = value.copy()?;
    Ok(())
}

/// Puts a copy in place of a value, unless memory ran out before.
pub fn fill_next<T: TryCopy + Drop>(
    filled: Result<(), AllocError>,
    place: &mut T,
    value: &T,
) -> Result<(), AllocError>
    ensures before { OnOk result (IsOk filled) }
    ensures place { OnOk result (place.new ≡ value.now) }
{
    filled?;
    *place = value.copy()?;
    Ok(())
}

/// Puts a copy in place of a value that may not be there.
pub fn fill_some<T: TryCopy + Drop>(place: &mut Option<T>, value: &T) -> Result<(), AllocError>
    ensures { OnOk result (place.new ≡ Some value.now) }
{
    *place = Some(value.copy()?);
    Ok(())
}

/// Sets a value. The drop of what it was is one call for who sets it.
pub fn set<T: Drop>(place: &mut T, value: T)
    ensures { place.new ≡ value }
{
    *place = value;
}

/// What was filled, unless memory ran out meanwhile.
pub fn whole<T: Drop>(made: T, filled: Result<(), AllocError>) -> Result<T, AllocError>
    ensures made { IfOk result (λ value. value ≡ made) }
    ensures filled { OnOk result (IsOk filled) }
{
    filled?;
    Ok(made)
}
