ghost use Rattle.std.specs.Prelude.{◌≡◌, ◌==◌, ◌≤◌, length};
ghost use Rattle.std.specs.List.{prefix_len};
ghost use Rattle.hd_lines.specs.Blanks.{is_blank, unpadded};

/// Whether the bytes are blanks alone.
pub fn is_blank(bytes: &[u8]) -> bool
    ensures { result ≡ is_blank bytes.now }
{
    bytes.iter().all(|b| *b == b' ')
}

/// The bytes without the blanks at their front.
pub fn unpadded(bytes: &[u8]) -> &[u8]
    ensures { result.now ≡ unpadded bytes.now }
{
    &bytes[blanks_in_front(bytes)..]
}

fn blanks_in_front(bytes: &[u8]) -> usize
    ensures value { result ≡ prefix_len (λ b. b == 32) bytes.now }
    ensures bound { result ≤ length bytes.now }
{
    bytes.iter().take_while(|b| **b == b' ').count()
}
