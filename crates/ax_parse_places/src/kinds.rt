//! Tokens that are names, numbers or formats.
ghost use Rattle.std.specs.Prelude.{◌≡◌};
ghost use Rattle.ax_parse_places.specs.Turns.{is_name as is_name_kind, is_number as is_number_kind, is_format as is_format_kind};

use ax_prog::tokens::Kind;

pub fn is_name(kind: &Kind) -> bool
    ensures { result ≡ is_name_kind kind.now }
{
    matches!(kind, Kind::Name(_))
}

pub fn is_number(kind: &Kind) -> bool
    ensures { result ≡ is_number_kind kind.now }
{
    matches!(kind, Kind::Number(_))
}

pub fn is_format(kind: &Kind) -> bool
    ensures { result ≡ is_format_kind kind.now }
{
    matches!(kind, Kind::Format(_))
}
