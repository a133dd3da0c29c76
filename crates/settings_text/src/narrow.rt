// A number in the type of its setting, once its range is known.
ghost use Rattle.std.specs.Prelude.{◌≡◌, pos};
ghost use Rattle.settings_text.specs.Keys.{minus};
ghost use Rattle.settings_text.specs.Tables.{IsInRange};

/// A number from 0 to 255.
pub fn to_u8(number: &i64) -> u8
    requires { IsInRange (pos 0) (pos 255) number.now }
    ensures { pos result ≡ number.now }
{
    *number as u8
}

/// A number from 0 to 65,535.
pub fn to_u16(number: &i64) -> u16
    requires { IsInRange (pos 0) (pos 65535) number.now }
    ensures { pos result ≡ number.now }
{
    *number as u16
}

/// A number from -32,768 to 32,767.
pub fn to_i16(number: &i64) -> i16
    requires { IsInRange (minus 32768) (pos 32767) number.now }
    ensures { result ≡ number.now }
{
    *number as i16
}

/// A number from -2,147,483,648 to 2,147,483,647.
pub fn to_i32(number: &i64) -> i32
    requires { IsInRange (minus 2147483648) (pos 2147483647) number.now }
    ensures { result ≡ number.now }
{
    *number as i32
}
