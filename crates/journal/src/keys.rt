// The keys of a replay.
ghost use Rattle.std.specs.Prelude.{◌≡◌};
ghost use Rattle.std.specs.List.{list_any};
ghost use Rattle.cipher_mode.specs.Key.{key_number};
ghost use Rattle.journal.specs.KeyList.{key_found, number_twice, bad_keys};

use cipher_mode::Sm4Cipher;

// The most keys of a replay.
const MOST: usize = 8;

// The first `count` records; the others are not looked at. The count stays beside them: a host may tell one above eight, which is
// answered, and no slice of the eight could say it.
#[derive(Clone, Copy)]
pub struct Keys {
    pub count: usize,
    pub keys: [Sm4Cipher; MOST],
}

// The number that the answers of calls on a record repeat: 0 where no key stands.
fn number_of(key: &Sm4Cipher) -> u16
    ensures { result ≡ key_number key.now }
{
    cipher_mode::number_in(key.answer, key.number)
}

// The first key that has this number.
pub(crate) fn find(keys: &[Sm4Cipher], number: u16) -> Option<Sm4Cipher>
    ensures { result ≡ key_found number keys.now }
{
    for key in keys {
        if number_of(key) == number {
            return Some(*key);
        }
    }
    None
}

// Whether a key is retired.
fn any_retired(keys: &[Sm4Cipher]) -> bool
    ensures { result ≡ list_any (λ key. key.retired) keys.now }
{
    keys.iter().any(|key| key.retired)
}

// Whether two keys have one number.
fn number_twice(keys: &[Sm4Cipher]) -> bool
    ensures { result ≡ number_twice keys.now }
{
    let mut rest = keys;
    while let Some((key, behind)) = rest.split_first() {
        if find(behind, number_of(key)).is_some() {
            return true;
        }
        rest = behind;
    }
    false
}

// Over eight keys, a retired one, or a number twice.
pub fn bad(keys: Keys) -> bool
    ensures { result ≡ bad_keys keys }
{
    if keys.count > MOST {
        return true;
    }
    let lent = &keys.keys[..keys.count];
    any_retired(lent) || number_twice(lent)
}
