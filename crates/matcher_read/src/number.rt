ghost use Rattle.std.specs.Prelude.{◌<◌, IsTrue, SomeIff, length, pos};
ghost use Rattle.std.specs.Char.{is_ascii_digit};
ghost use Rattle.std.specs.List.{list_all};
ghost use Rattle.std.specs.Str.Parse.{digits_value};
ghost use Rattle.matcher_read.specs.Matcher.{first_wide};

/// The number of some digits, where it fits 64 bits with a sign.
pub(crate) fn number_by(digits: &str) -> Option<i64>
    requires some { 0 < length digits.now }
    requires digits { IsTrue (list_all is_ascii_digit digits.now) }
    ensures { let value = digits_value 10 digits.now in
        SomeIff result (value < first_wide) (pos value) }
{
    digits.parse().ok()
}
