// Which bytes count as DNA: A, C, G, T and N, in either case.
ghost use Rattle.std.specs.Prelude.{◌≡◌};
ghost use Rattle.umi_column.specs.Dna.{is_dna_base};

// The two cases of a letter differ by 32, bit 5 of the byte: without it both are the upper case. Of other
// bytes it is taken as well, and none of them becomes one of the five. With no branch a loop over bytes
// goes by sixteen at a time.
pub fn is_dna_base(b: u8) -> bool
    ensures { result ≡ is_dna_base b }
{
    let upper = b - b / 32 % 2 * 32;
    let a_or_c = (upper == b'A') | (upper == b'C');
    let g_or_t = (upper == b'G') | (upper == b'T');
    a_or_c | g_or_t | (upper == b'N')
}
