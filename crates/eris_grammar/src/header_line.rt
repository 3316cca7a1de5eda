ghost use Rattle.std.specs.Prelude.{◌≡◌, ◌⊎◌, ◌&&◌, nat_le, Some, option_map, IfOk, IfSome};
ghost use Rattle.eris_words.specs.Decimal.{read_decimal};
ghost use Rattle.eris_grammar.specs.Headers as head;

use crate::header::Header;
use eris_base::Config;
use eris_words::{LineWords, Reason, read_number};

fn version_of(word: &[u8]) -> Option<u8>
    ensures exact { result ≡ head.version_of word.now }
    ensures known { IfSome result (λ version. (version ≡ 1) ⊎ (version ≡ 2)) }
{
    if word == b"1".as_slice() {
        Some(1)
    } else if word == b"2".as_slice() {
        Some(2)
    } else {
        None
    }
}

fn size_of(word: &[u8]) -> Option<u8>
    ensures { result ≡ read_decimal 255 word.now }
{
    Some(read_number(word, 255)? as u8)
}

// The sizes that three words write, whatever their limits.
fn sizes_in(words: &mut LineWords) -> Option<(u8, u8, u8)>
    ensures { option_map (λ s. record { shards = s.0; f = s.1; clients = s.2 }) result ≡ head.sizes_in words.old }
{
    let shards = words.pop()?;
    let f = words.pop()?;
    let clients = words.pop()?;
    if !words.is_at_end() {
        return None;
    }
    Some((size_of(shards)?, size_of(f)?, size_of(clients)?))
}

fn is_small(version: u8, shards: u8, clients: u8) -> bool
    ensures { result ≡ (nat_le shards (head.most_shards version) && nat_le clients (head.most_clients version)) }
{
    if version == 1 {
        shards <= 16 && clients <= 32
    } else {
        shards <= 64 && clients <= 128
    }
}

fn sized(version: u8, shards: u8, f: u8, clients: u8) -> Option<Header>
    ensures { result ≡ head.sized version (Some (record { shards = shards; f = f; clients = clients })) }
{
    if !is_small(version, shards, clients) {
        return None;
    }
    match Config::new(shards, f, clients) {
        Ok(config) => Some(Header { version, config }),
        Err(_) => None,
    }
}

fn headed(words: &mut LineWords) -> Option<Header>
    ensures exact { result ≡ head.headed words.old }
    ensures known { IfSome result (λ header. (header.version ≡ 1) ⊎ (header.version ≡ 2)) }
{
    if words.pop()? != b"eris".as_slice() {
        return None;
    }
    let version = version_of(words.pop()?)?;
    let (shards, f, clients) = sizes_in(words)?;
    sized(version, shards, f, clients)
}

/// What the first line of a script says, without the LF that ends it and one CR before that. It takes no
/// memory.
///
/// # Errors
///
/// `Header` exactly where the line isn't `eris V S F C` with a version of 1 or 2 and with sizes in the
/// limits of that version.
#[tactic(auto, unfolding(crate::specs::Headers::header_of))]
pub fn parse_header(line: &[u8]) -> Result<Header, Reason>
    ensures exact { result ≡ head.header_of line.now }
    ensures known { IfOk result (λ header. (header.version ≡ 1) ⊎ (header.version ≡ 2)) }
{
    match headed(&mut LineWords::new(line)) {
        Some(header) => Ok(header),
        None => Err(Reason::Header),
    }
}
