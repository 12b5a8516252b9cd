//! What the words have for an argument.
ghost use Rattle.std.specs.Prelude.{◌≡◌, IfSome, IsSome, IsSomeAnd, Some, map, option_map};
ghost use Rattle.clap.specs.Words.{IsUnsignedIn, all_of, first_of, found_of, one_of, rows_of};
ghost use Rattle.l4sh_options.specs.Shell.{IsCountIn, IsFlagIn, ReadsOneUpTo, number_in};

use clap::ArgMatches;

/// Whether a flag was given.
pub(crate) fn flag(found: &ArgMatches<'_>, id: &str) -> bool
    ensures { IsFlagIn (rows_of (found_of found.now)) id.now result }
{
    found.get_flag(id)
}

/// A text; None where none was given.
pub(crate) fn text<'a>(found: &ArgMatches<'a>, id: &str) -> Option<&'a str>
    ensures { option_map (λ text. text.now) result
        ≡ first_of id.now (rows_of (found_of found.now)) }
{
    found.get_str(id)
}

/// The texts of an argument that may be given more than once.
pub(crate) fn texts<'b, 'a>(found: &'b ArgMatches<'a>, id: &str) -> Option<&'b [&'a str]>
    ensures { option_map (λ texts. map (λ text. text.now) texts.now) result
        ≡ all_of id.now (rows_of (found_of found.now)) }
{
    found.get_strs(id)
}

/// A number of 32 bits.
pub(crate) fn number(found: &ArgMatches<'_>, id: &str) -> Option<u32>
    ensures number { IfSome result (λ n. number_in (rows_of (found_of found.now)) id.now ≡ Some n) }
    ensures found { IsSomeAnd (one_of id.now (rows_of (found_of found.now)))
        (IsUnsignedIn 0 u32.MAX) → IsSome result }
{
    found.get_one::<u32>(id)
}

/// A number of 16 bits.
pub(crate) fn short_number(found: &ArgMatches<'_>, id: &str) -> Option<u16>
    ensures { IfSome result (λ n. number_in (rows_of (found_of found.now)) id.now ≡ Some n) }
{
    found.get_one::<u16>(id)
}

/// A number, 1 to the most.
pub(crate) fn number_up_to(found: &ArgMatches<'_>, id: &str, most: u32) -> Option<u32>
    ensures number { IfSome result (IsCountIn (rows_of (found_of found.now)) id.now most) }
    ensures found { ReadsOneUpTo (rows_of (found_of found.now)) id.now most → IsSome result }
{
    let number = number(found, id)?;
    if number >= 1 && number <= most {
        Some(number)
    } else {
        None
    }
}
