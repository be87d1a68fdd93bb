//! How a bin changes its context, by one table.

ghost use Rattle.std.specs.Prelude.{◌≡◌, ◌+◌, ◌*◌, ◌<◌, if◌then◌else◌};
ghost use Rattle.cabac_engine.specs.ContextTable.{entry_of};
ghost use Rattle.spec_cabac.specs.Contexts.{context_after_lps, context_after_mps};

/// The context behind each context's more probable symbol, and behind its less probable one (9.3.4.3.2.2).
#[rattlefmt::skip]
static CONTEXT_AFTER: [u8; 252] = [
      2,   1,   3,   0,   4,   0,   5,   1,   6,   2,   7,   3,   8,   4,   9,   5,  10,   4,
     11,   5,  12,   8,  13,   9,  14,   8,  15,   9,  16,  10,  17,  11,  18,  12,  19,  13,
     20,  14,  21,  15,  22,  16,  23,  17,  24,  18,  25,  19,  26,  18,  27,  19,  28,  22,
     29,  23,  30,  22,  31,  23,  32,  24,  33,  25,  34,  26,  35,  27,  36,  26,  37,  27,
     38,  30,  39,  31,  40,  30,  41,  31,  42,  32,  43,  33,  44,  32,  45,  33,  46,  36,
     47,  37,  48,  36,  49,  37,  50,  38,  51,  39,  52,  38,  53,  39,  54,  42,  55,  43,
     56,  42,  57,  43,  58,  44,  59,  45,  60,  44,  61,  45,  62,  46,  63,  47,  64,  48,
     65,  49,  66,  48,  67,  49,  68,  50,  69,  51,  70,  52,  71,  53,  72,  52,  73,  53,
     74,  54,  75,  55,  76,  54,  77,  55,  78,  56,  79,  57,  80,  58,  81,  59,  82,  58,
     83,  59,  84,  60,  85,  61,  86,  60,  87,  61,  88,  60,  89,  61,  90,  62,  91,  63,
     92,  64,  93,  65,  94,  64,  95,  65,  96,  66,  97,  67,  98,  66,  99,  67, 100,  66,
    101,  67, 102,  68, 103,  69, 104,  68, 105,  69, 106,  70, 107,  71, 108,  70, 109,  71,
    110,  70, 111,  71, 112,  72, 113,  73, 114,  72, 115,  73, 116,  72, 117,  73, 118,  74,
    119,  75, 120,  74, 121,  75, 122,  74, 123,  75, 124,  76, 125,  77, 124,  76, 125,  77,
];

/// The context behind a bin, by whether that is its less probable symbol.
#[inline(always)]
pub fn context_after(context: u8, less_probable: bool) -> u8
    requires { context < 126 }
    ensures value { result ≡ (if less_probable then context_after_lps context else context_after_mps context) }
    ensures small { result < 126 }
{
    entry(2 * usize::from(context) + usize::from(less_probable))
}

/// An entry of the table.
#[inline(always)]
#[tactic(auto, unfolding(crate::specs::ContextTable::entry_of))]
fn entry(i: usize) -> u8
    requires { i < 252 }
    ensures value { result ≡ entry_of i }
    ensures small { result < 126 }
{
    CONTEXT_AFTER[i]
}
