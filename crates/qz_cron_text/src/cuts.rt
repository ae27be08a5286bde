//! Cutting a text at marks.
ghost use Rattle.std.specs.Prelude.{◌≡◌, ◌==◌, ◌+◌, length, IfSome, IfNone};
ghost use Rattle.std.specs.Option.{option_map};
ghost use Rattle.std.specs.List.{position, slice_split};
ghost use Rattle.qz_cron_text.specs.Cuts.{cut_at, pieces, pieces_by};
ghost use Rattle.qz_cron_text.specs.Texts.{is_blank};

// Where the first `mark` is.
fn place_of(bytes: &[u8], mark: u8) -> Option<usize>
    ensures { result ≡ position (λ b. b == mark) bytes.now }
{
    bytes.iter().position(|b| *b == mark)
}

/// The bytes before the first `mark`, and those after it.
#[tactic(auto, using(std::proofs::lemmas::List::take_rest, crate::proofs::CutLemmas::split_at_place, crate::proofs::CutLemmas::split_nowhere), unfolding(crate::specs::Cuts::cut_at))]
pub fn cut(bytes: &[u8], mark: u8) -> (&[u8], Option<&[u8]>)
    ensures parts { record { front = result.0.now; rest = option_map (λ s. s.now) result.1 } ≡ cut_at mark bytes.now }
    ensures pieces { slice_split (λ b. b == mark) bytes.now ≡ pieces mark result.0.now (option_map (λ s. s.now) result.1) }
    ensures length { IfSome result.1 (λ rest. length result.0.now + 1 + length rest.now ≡ length bytes.now) }
{
    match place_of(bytes, mark) {
        Some(end) => (&bytes[..end], Some(&bytes[end + 1..])),
        None => (bytes, None),
    }
}

// Where the first blank is.
fn blank_of(bytes: &[u8]) -> Option<usize>
    ensures { result ≡ position is_blank bytes.now }
{
    bytes.iter().position(|b| *b == b' ' || *b == b'\t')
}

/// The bytes before the first blank, and those after it.
#[tactic(auto, using(std::proofs::lemmas::List::take_rest, crate::proofs::CutLemmas::split_at_place))]
pub fn cut_at_blank(bytes: &[u8]) -> (&[u8], Option<&[u8]>)
    ensures pieces { slice_split is_blank bytes.now ≡ pieces_by is_blank result.0.now (option_map (λ s. s.now) result.1) }
    ensures length { IfSome result.1 (λ rest. length result.0.now + 1 + length rest.now ≡ length bytes.now) }
    ensures whole { IfNone result.1 (length result.0.now ≡ length bytes.now) }
{
    match blank_of(bytes) {
        Some(end) => (&bytes[..end], Some(&bytes[end + 1..])),
        None => (bytes, None),
    }
}
