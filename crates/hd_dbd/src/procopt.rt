ghost use Rattle.std.specs.Prelude.{◌≡◌, ◌||◌, ◌==◌};
ghost use Rattle.std.specs.List.{list_any, list_all};
ghost use Rattle.hd_dbd.specs.Letters.{gives_get, gives_load, is_access_letter, gives_access, only_loads, is_procopt};

/// Whether letters of PROCOPT give gets: G, or R, D or A, which include it.
pub fn gives_get(letters: &[u8]) -> bool
    ensures { result ≡ gives_get letters.now }
{
    letters
        .iter()
        .any(|b| *b == b'G' || *b == b'R' || *b == b'D' || *b == b'A')
}

/// Whether letters of PROCOPT give the load.
pub fn gives_load(letters: &[u8]) -> bool
    ensures { result ≡ gives_load letters.now }
{
    letters.iter().any(|b| *b == b'L')
}

/// Whether a letter of PROCOPT gives calls: G, I, R, D or A.
fn is_access_letter(letter: u8) -> bool
    ensures { result ≡ is_access_letter letter }
{
    matches!(letter, b'G' | b'I' | b'R' | b'D' | b'A')
}

/// Whether one of the letters gives calls.
fn has_access_letter(letters: &[u8]) -> bool
    ensures { result ≡ list_any is_access_letter letters.now }
{
    letters.iter().any(|b| is_access_letter(*b))
}

/// Whether each of the letters gives calls or is P.
fn are_access_letters(letters: &[u8]) -> bool
    ensures { result ≡ list_all (λ b. is_access_letter b || b == 80) letters.now }
{
    letters.iter().all(|b| is_access_letter(*b) || *b == b'P')
}

/// Whether the letters give calls, with P beside them at the most.
fn gives_access(letters: &[u8]) -> bool
    ensures { result ≡ gives_access letters.now }
{
    has_access_letter(letters) && are_access_letters(letters)
}

/// Whether each of the letters is L or S.
fn are_load_letters(letters: &[u8]) -> bool
    ensures { result ≡ list_all (λ b. b == 76 || b == 83) letters.now }
{
    letters.iter().all(|b| *b == b'L' || *b == b'S')
}

/// Whether the letters give the load, with S beside it at the most.
fn only_loads(letters: &[u8]) -> bool
    ensures { result ≡ only_loads letters.now }
{
    gives_load(letters) && are_load_letters(letters)
}

/// Whether the letters may stand as PROCOPT.
pub fn is_procopt(letters: &[u8]) -> bool
    ensures { result ≡ is_procopt letters.now }
{
    gives_access(letters) || only_loads(letters)
}
