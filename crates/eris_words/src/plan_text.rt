ghost use Rattle.std.specs.Prelude.{◌≡◌, ◌++◌, map, OnOk};
ghost use Rattle.std.specs.List.{flat_map};
ghost use Rattle.eris_words.specs.PlanText.{how_words, guard_words, setting_words, plan_words};
ghost use Rattle.eris_words.specs.Words.{key_word, spaced};

use crate::words::{put_key, put_number, put_word};
use eris_base::{NoMemory, Row};
use eris_txn::{Guard, How, Key, Plan, Setting};

/// Adds a plan: `lock` and its keys, its guards, its settings, with `;` between them.
pub fn put_plan(out: &mut Row<u8>, plan: &Plan) -> Result<(), NoMemory>
    ensures { OnOk result (out.new ≡ out.old ++ spaced (plan_words plan.now)) }
{
    put_word(out, b"lock")?;
    put_keys(out, plan.keys())?;
    put_guards(out, plan.guards())?;
    put_settings(out, plan.settings())
}

fn put_keys(out: &mut Row<u8>, keys: &[Key]) -> Result<(), NoMemory>
    ensures { OnOk result (out.new ≡ out.old ++ spaced (map key_word keys.now)) }
{
    for key in keys {
        put_key(out, key)?;
    }
    Ok(())
}

fn put_guards(out: &mut Row<u8>, guards: &[Guard]) -> Result<(), NoMemory>
    ensures { OnOk result (out.new ≡ out.old ++ spaced (flat_map guard_words guards.now)) }
{
    for guard in guards {
        put_word(out, b";")?;
        put_word(out, b"guard")?;
        put_key(out, &guard.key)?;
        put_number(out, guard.least)?;
    }
    Ok(())
}

fn put_settings(out: &mut Row<u8>, settings: &[Setting]) -> Result<(), NoMemory>
    ensures { OnOk result (out.new ≡ out.old ++ spaced (flat_map setting_words settings.now)) }
{
    for setting in settings {
        put_word(out, b";")?;
        put_setting(out, setting)?;
    }
    Ok(())
}

fn put_setting(out: &mut Row<u8>, setting: &Setting) -> Result<(), NoMemory>
    ensures { OnOk result (out.new ≡ out.old ++ spaced (how_words setting.now.how setting.now.key)) }
{
    let (word, value): (&[u8], u64) = match setting.how {
        How::Put(value) => (b"set", value),
        How::Plus(value) => (b"plus", value),
        How::Minus(value) => (b"minus", value),
    };
    put_word(out, word)?;
    put_key(out, &setting.key)?;
    put_number(out, value)
}
