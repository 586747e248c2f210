//! Integers: what a literal and a string are at each, their bounds and one beyond each; those that are not zero.

use crate::asked::rows;
use crate::shown::Debugged;
use std::num::{
    NonZeroI8, NonZeroI16, NonZeroI32, NonZeroI64, NonZeroI128, NonZeroIsize, NonZeroU8,
    NonZeroU16, NonZeroU32, NonZeroU64, NonZeroU128, NonZeroUsize,
};
use tests_checks::Tested;

// Suffixes and bases of a literal are ignored; a string is what `parse` reads.
const EVERY: &str = r#"a = 1 => 1
a = 0x2Ai32 => 42
a = 1_0 => 10
a = "+1" => 1
a = "1_0" => 4..9 Unknown value: `1_0`;
a = "" => 4..6 Unknown value: ``;
a = "a" => 4..7 Unknown value: `a`;
a = 'b' => 4..7 Unexpected type `char`;
a = true => 4..8 Unexpected type `bool`;
a = 1.5 => 4..7 Unexpected type `float`;
a = b => 4..5 Unexpected type `path`;
a => 0..1 Unexpected meta-item format `word`;
a(b) => 0..4 Unexpected meta-item format `list`;
a = b c => 4..5 expected an expression;
7 => 7"#;

// A minus is no digit, not before zero either.
const UNSIGNED: &str = r#"a = -0 => 4..6 invalid digit found in string;
a = -1 => 4..6 invalid digit found in string;
a = "-0" => 4..8 Unknown value: `-0`;
a = "-1" => 4..8 Unknown value: `-1`;"#;

// A minus is read.
const SIGNED: &str = r#"a = -1 => -1
a = "-1" => -1
a = -0 => 0
a = "-0" => 0"#;

// Zero is a value.
const ZERO: &str = r#"a = 0 => 0
a = "0" => 0"#;

const U8: &str = r#"a = 255 => 255
a = "255" => 255
a = 256 => 4..7 number too large to fit in target type;
a = "256" => 4..9 Unknown value: `256`;
from_none => nothing
from_string 256 => - Unknown value: `256`;
from_char 1 => - Unexpected type `char`;
from_groups 7 => 7
from_groups 300 => 0..3 number too large to fit in target type;
from_groups a + b => 0..5 Unexpected type `binary`;
// number_succeeds
ignore = "2" => 2
// int_without_quotes
ignore = 2 => 2
// too_large_int_produces_error
ignore = 2000 => 9..13 number too large to fit in target type;"#;

const U16: &str = r#"a = 65535 => 65535
a = "65535" => 65535
a = 65536 => 4..9 number too large to fit in target type;
a = "65536" => 4..11 Unknown value: `65536`;
// int_without_quotes
ignore = 255 => 255"#;

const U32: &str = r#"a = 4294967295 => 4294967295
a = "4294967295" => 4294967295
a = 4294967296 => 4..14 number too large to fit in target type;
a = "4294967296" => 4..16 Unknown value: `4294967296`;
// int_without_quotes
ignore = 5000 => 5000
ignore = 5000i32 => 5000"#;

const U64: &str = r#"a = 18446744073709551615 => 18446744073709551615
a = "18446744073709551615" => 18446744073709551615
a = 18446744073709551616 => 4..24 number too large to fit in target type;
a = "18446744073709551616" => 4..26 Unknown value: `18446744073709551616`;"#;

const U128: &str =
    r#"a = 340282366920938463463374607431768211455 => 340282366920938463463374607431768211455
a = "340282366920938463463374607431768211455" => 340282366920938463463374607431768211455
a = "340282366920938463463374607431768211456" => 4..45 Unknown value: `340282366920938463463374607431768211456`;"#;

const USIZE: &str = r#"a = 18446744073709551615 => 18446744073709551615
a = "18446744073709551615" => 18446744073709551615
a = 18446744073709551616 => 4..24 number too large to fit in target type;
a = "18446744073709551616" => 4..26 Unknown value: `18446744073709551616`;"#;

const I8: &str = r#"a = 127 => 127
a = "127" => 127
a = 128 => 4..7 number too large to fit in target type;
a = "128" => 4..9 Unknown value: `128`;
a = -128 => -128
a = "-128" => -128
a = -129 => 4..8 number too small to fit in target type;
a = "-129" => 4..10 Unknown value: `-129`;
// negative_int_without_quotes
ignore = -2 => -2"#;

const I16: &str = r#"a = 32767 => 32767
a = "32767" => 32767
a = 32768 => 4..9 number too large to fit in target type;
a = "32768" => 4..11 Unknown value: `32768`;
a = -32768 => -32768
a = "-32768" => -32768
a = -32769 => 4..10 number too small to fit in target type;
a = "-32769" => 4..12 Unknown value: `-32769`;
// number_succeeds
ignore = "-25" => -25"#;

const I32: &str = r#"a = 2147483647 => 2147483647
a = "2147483647" => 2147483647
a = 2147483648 => 4..14 number too large to fit in target type;
a = "2147483648" => 4..16 Unknown value: `2147483648`;
a = -2147483648 => -2147483648
a = "-2147483648" => -2147483648
a = -2147483649 => 4..15 number too small to fit in target type;
a = "-2147483649" => 4..17 Unknown value: `-2147483649`;
// negative_int_without_quotes
ignore = -255 => -255"#;

const I64: &str = r#"a = 9223372036854775807 => 9223372036854775807
a = "9223372036854775807" => 9223372036854775807
a = 9223372036854775808 => 4..23 number too large to fit in target type;
a = "9223372036854775808" => 4..25 Unknown value: `9223372036854775808`;
a = -9223372036854775808 => -9223372036854775808
a = "-9223372036854775808" => -9223372036854775808
a = -9223372036854775809 => 4..24 number too small to fit in target type;
a = "-9223372036854775809" => 4..26 Unknown value: `-9223372036854775809`;"#;

const I128: &str =
    r#"a = 170141183460469231731687303715884105727 => 170141183460469231731687303715884105727
a = "170141183460469231731687303715884105727" => 170141183460469231731687303715884105727
a = 170141183460469231731687303715884105728 => 4..43 number too large to fit in target type;
a = "170141183460469231731687303715884105728" => 4..45 Unknown value: `170141183460469231731687303715884105728`;
a = -170141183460469231731687303715884105728 => -170141183460469231731687303715884105728
a = "-170141183460469231731687303715884105728" => -170141183460469231731687303715884105728
a = -170141183460469231731687303715884105729 => 4..44 number too small to fit in target type;
a = "-170141183460469231731687303715884105729" => 4..46 Unknown value: `-170141183460469231731687303715884105729`;"#;

const ISIZE: &str = r#"a = 9223372036854775807 => 9223372036854775807
a = "9223372036854775807" => 9223372036854775807
a = 9223372036854775808 => 4..23 number too large to fit in target type;
a = "9223372036854775808" => 4..25 Unknown value: `9223372036854775808`;
a = -9223372036854775808 => -9223372036854775808
a = "-9223372036854775808" => -9223372036854775808
a = -9223372036854775809 => 4..24 number too small to fit in target type;
a = "-9223372036854775809" => 4..26 Unknown value: `-9223372036854775809`;"#;

// A minus is read.
const SIGNED_NOT_ZERO: &str = r#"a = -1 => -1
a = "-1" => -1
a = -0 => 4..6 number would be zero for non-zero type;
a = "-0" => 4..8 Unknown value: `-0`;"#;

// Zero is no value.
const NO_ZERO: &str = r#"a = 0 => 4..5 number would be zero for non-zero type;
a = "0" => 4..7 Unknown value: `0`;"#;

const NON_ZERO_U8: &str = r#"a = 255 => 255
a = "255" => 255
a = 256 => 4..7 number too large to fit in target type;
a = "256" => 4..9 Unknown value: `256`;
from_string 0 => - Unknown value: `0`;"#;

const NON_ZERO_U16: &str = r#"a = 65535 => 65535
a = "65535" => 65535
a = 65536 => 4..9 number too large to fit in target type;
a = "65536" => 4..11 Unknown value: `65536`;"#;

const NON_ZERO_U32: &str = r#"a = 4294967295 => 4294967295
a = "4294967295" => 4294967295
a = 4294967296 => 4..14 number too large to fit in target type;
a = "4294967296" => 4..16 Unknown value: `4294967296`;
// nonzero_number_succeeds
ignore = "2" => 2"#;

const NON_ZERO_U64: &str = r#"a = 18446744073709551615 => 18446744073709551615
a = "18446744073709551615" => 18446744073709551615
a = 18446744073709551616 => 4..24 number too large to fit in target type;
a = "18446744073709551616" => 4..26 Unknown value: `18446744073709551616`;
// nonzero_number_fails
ignore = "0" => 9..12 Unknown value: `0`;"#;

const NON_ZERO_U128: &str =
    r#"a = 340282366920938463463374607431768211455 => 340282366920938463463374607431768211455
a = "340282366920938463463374607431768211455" => 340282366920938463463374607431768211455
a = "340282366920938463463374607431768211456" => 4..45 Unknown value: `340282366920938463463374607431768211456`;"#;

const NON_ZERO_USIZE: &str = r#"a = 18446744073709551615 => 18446744073709551615
a = "18446744073709551615" => 18446744073709551615
a = 18446744073709551616 => 4..24 number too large to fit in target type;
a = "18446744073709551616" => 4..26 Unknown value: `18446744073709551616`;"#;

const NON_ZERO_I8: &str = r#"a = 127 => 127
a = "127" => 127
a = 128 => 4..7 number too large to fit in target type;
a = "128" => 4..9 Unknown value: `128`;
a = -128 => -128
a = "-128" => -128
a = -129 => 4..8 number too small to fit in target type;
a = "-129" => 4..10 Unknown value: `-129`;
from_none => nothing"#;

const NON_ZERO_I16: &str = r#"a = 32767 => 32767
a = "32767" => 32767
a = 32768 => 4..9 number too large to fit in target type;
a = "32768" => 4..11 Unknown value: `32768`;
a = -32768 => -32768
a = "-32768" => -32768
a = -32769 => 4..10 number too small to fit in target type;
a = "-32769" => 4..12 Unknown value: `-32769`;"#;

const NON_ZERO_I32: &str = r#"a = 2147483647 => 2147483647
a = "2147483647" => 2147483647
a = 2147483648 => 4..14 number too large to fit in target type;
a = "2147483648" => 4..16 Unknown value: `2147483648`;
a = -2147483648 => -2147483648
a = "-2147483648" => -2147483648
a = -2147483649 => 4..15 number too small to fit in target type;
a = "-2147483649" => 4..17 Unknown value: `-2147483649`;"#;

const NON_ZERO_I64: &str = r#"a = 9223372036854775807 => 9223372036854775807
a = "9223372036854775807" => 9223372036854775807
a = 9223372036854775808 => 4..23 number too large to fit in target type;
a = "9223372036854775808" => 4..25 Unknown value: `9223372036854775808`;
a = -9223372036854775808 => -9223372036854775808
a = "-9223372036854775808" => -9223372036854775808
a = -9223372036854775809 => 4..24 number too small to fit in target type;
a = "-9223372036854775809" => 4..26 Unknown value: `-9223372036854775809`;"#;

const NON_ZERO_I128: &str =
    r#"a = 170141183460469231731687303715884105727 => 170141183460469231731687303715884105727
a = "170141183460469231731687303715884105727" => 170141183460469231731687303715884105727
a = 170141183460469231731687303715884105728 => 4..43 number too large to fit in target type;
a = "170141183460469231731687303715884105728" => 4..45 Unknown value: `170141183460469231731687303715884105728`;
a = -170141183460469231731687303715884105728 => -170141183460469231731687303715884105728
a = "-170141183460469231731687303715884105728" => -170141183460469231731687303715884105728
a = -170141183460469231731687303715884105729 => 4..44 number too small to fit in target type;
a = "-170141183460469231731687303715884105729" => 4..46 Unknown value: `-170141183460469231731687303715884105729`;"#;

const NON_ZERO_ISIZE: &str = r#"a = 9223372036854775807 => 9223372036854775807
a = "9223372036854775807" => 9223372036854775807
a = 9223372036854775808 => 4..23 number too large to fit in target type;
a = "9223372036854775808" => 4..25 Unknown value: `9223372036854775808`;
a = -9223372036854775808 => -9223372036854775808
a = "-9223372036854775808" => -9223372036854775808
a = -9223372036854775809 => 4..24 number too small to fit in target type;
a = "-9223372036854775809" => 4..26 Unknown value: `-9223372036854775809`;"#;

#[test]
fn integers(rt: HostRuntime) -> Tested<()> {
    let alloc = rt.alloc();
    rows::<u8, Debugged>(alloc, &[EVERY, UNSIGNED, ZERO, U8])?;
    rows::<u16, Debugged>(alloc, &[EVERY, UNSIGNED, ZERO, U16])?;
    rows::<u32, Debugged>(alloc, &[EVERY, UNSIGNED, ZERO, U32])?;
    rows::<u64, Debugged>(alloc, &[EVERY, UNSIGNED, ZERO, U64])?;
    rows::<u128, Debugged>(alloc, &[EVERY, UNSIGNED, ZERO, U128])?;
    rows::<usize, Debugged>(alloc, &[EVERY, UNSIGNED, ZERO, USIZE])?;
    rows::<i8, Debugged>(alloc, &[EVERY, SIGNED, ZERO, I8])?;
    rows::<i16, Debugged>(alloc, &[EVERY, SIGNED, ZERO, I16])?;
    rows::<i32, Debugged>(alloc, &[EVERY, SIGNED, ZERO, I32])?;
    rows::<i64, Debugged>(alloc, &[EVERY, SIGNED, ZERO, I64])?;
    rows::<i128, Debugged>(alloc, &[EVERY, SIGNED, ZERO, I128])?;
    rows::<isize, Debugged>(alloc, &[EVERY, SIGNED, ZERO, ISIZE])?;
    Ok(())
}

#[test]
fn integers_but_zero(rt: HostRuntime) -> Tested<()> {
    let alloc = rt.alloc();
    rows::<NonZeroU8, Debugged>(alloc, &[EVERY, UNSIGNED, NO_ZERO, NON_ZERO_U8])?;
    rows::<NonZeroU16, Debugged>(alloc, &[EVERY, UNSIGNED, NO_ZERO, NON_ZERO_U16])?;
    rows::<NonZeroU32, Debugged>(alloc, &[EVERY, UNSIGNED, NO_ZERO, NON_ZERO_U32])?;
    rows::<NonZeroU64, Debugged>(alloc, &[EVERY, UNSIGNED, NO_ZERO, NON_ZERO_U64])?;
    rows::<NonZeroU128, Debugged>(alloc, &[EVERY, UNSIGNED, NO_ZERO, NON_ZERO_U128])?;
    rows::<NonZeroUsize, Debugged>(alloc, &[EVERY, UNSIGNED, NO_ZERO, NON_ZERO_USIZE])?;
    rows::<NonZeroI8, Debugged>(alloc, &[EVERY, SIGNED_NOT_ZERO, NO_ZERO, NON_ZERO_I8])?;
    rows::<NonZeroI16, Debugged>(alloc, &[EVERY, SIGNED_NOT_ZERO, NO_ZERO, NON_ZERO_I16])?;
    rows::<NonZeroI32, Debugged>(alloc, &[EVERY, SIGNED_NOT_ZERO, NO_ZERO, NON_ZERO_I32])?;
    rows::<NonZeroI64, Debugged>(alloc, &[EVERY, SIGNED_NOT_ZERO, NO_ZERO, NON_ZERO_I64])?;
    rows::<NonZeroI128, Debugged>(alloc, &[EVERY, SIGNED_NOT_ZERO, NO_ZERO, NON_ZERO_I128])?;
    rows::<NonZeroIsize, Debugged>(alloc, &[EVERY, SIGNED_NOT_ZERO, NO_ZERO, NON_ZERO_ISIZE])?;
    Ok(())
}
