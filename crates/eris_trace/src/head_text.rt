ghost use Rattle.std.specs.Prelude.{◌≡◌, ◌++◌, OnOk};
ghost use Rattle.eris_report.specs.ReportText.{config_words};
ghost use Rattle.eris_trace.specs.ItemText.{end_text, head_text, said_text};
ghost use Rattle.eris_words.specs.Words.{line};

use eris_base::{Config, NoMemory, Row};
use eris_words::{append_decimal, put_number};

/// Adds the first two lines of a trace: its version, and the sizes of the system.
#[tactic(auto, unfolding(crate::specs::ItemText::head_text))]
pub fn put_head(out: &mut Row<u8>, config: &Config) -> Result<(), NoMemory>
    ensures { OnOk result (out.new ≡ out.old ++ head_text config.now) }
{
    out.append(b"eris trace 1\n")?;
    put_config(out, config)
}

#[tactic(auto, unfolding(eris_report::specs::ReportText::config_words))]
fn put_config(out: &mut Row<u8>, config: &Config) -> Result<(), NoMemory>
    ensures { OnOk result (out.new ≡ out.old ++ line (config_words config.now)) }
{
    out.append(b"config")?;
    put_number(out, u64::from(config.shards()))?;
    put_number(out, u64::from(config.f()))?;
    put_number(out, u64::from(config.clients()))?;
    out.push(b'\n')
}

/// Adds a line of the script, with its number.
#[tactic(auto, unfolding(crate::specs::ItemText::said_text))]
pub fn put_script_line(out: &mut Row<u8>, number: u32, text: &[u8]) -> Result<(), NoMemory>
    ensures { OnOk result (out.new ≡ out.old ++ said_text number text.now) }
{
    out.append(b"line ")?;
    append_decimal(out, u64::from(number))?;
    out.push(b' ')?;
    out.append(text)?;
    out.push(b'\n')
}

/// Adds the last line of a trace.
#[tactic(auto, unfolding(crate::specs::ItemText::end_text))]
pub fn put_end(out: &mut Row<u8>) -> Result<(), NoMemory>
    ensures { OnOk result (out.new ≡ out.old ++ end_text) }
{
    out.append(b"end\n")
}
