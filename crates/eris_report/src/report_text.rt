ghost use Rattle.std.specs.Prelude.{◌≡◌, ◌++◌, IfOk, OnOk};
ghost use Rattle.std.specs.List.{flat_map};
ghost use Rattle.eris_report.specs.ReportText.{config_words, coordinator_words, title_words, head_lines, foot_lines, report_text};
ghost use Rattle.eris_words.specs.Words.{line};

use crate::history_text::put_history;
use crate::order_text::put_order;
use crate::replica_text::put_replicas;
use eris_base::{Config, NoMemory, Row};
use eris_event::Report;
use eris_words::{put_count, put_number};
use std::alloc::Global;

/// The report as text: a line for each of its parts, each line ended by LF.
#[tactic(auto, using(eris_words::proofs::LineLemmas::lines_joined))]
pub fn print_report(alloc: Global, report: &Report) -> Result<Row<u8>, NoMemory>
    ensures { IfOk result (λ text. text ≡ report_text report.now) }
{
    let mut text = Row::new(alloc);
    put_head(&mut text, &report.config)?;
    put_history(&mut text, report.history.as_slice())?;
    put_order(&mut text, report.order.as_slice())?;
    put_replicas(&mut text, report.replicas.as_slice())?;
    put_foot(&mut text, report)?;
    Ok(text)
}

#[tactic(auto, unfolding(crate::specs::ReportText::head_lines))]
fn put_head(out: &mut Row<u8>, config: &Config) -> Result<(), NoMemory>
    ensures { OnOk result (out.new ≡ out.old ++ flat_map line (head_lines config.now)) }
{
    put_title(out)?;
    put_config(out, config)
}

#[tactic(auto, unfolding(crate::specs::ReportText::title_words))]
fn put_title(out: &mut Row<u8>) -> Result<(), NoMemory>
    ensures { OnOk result (out.new ≡ out.old ++ line title_words) }
{
    out.append(b"eris report 1\n")
}

#[tactic(auto, unfolding(crate::specs::ReportText::config_words))]
fn put_config(out: &mut Row<u8>, config: &Config) -> Result<(), NoMemory>
    ensures { OnOk result (out.new ≡ out.old ++ line (config_words config.now)) }
{
    out.append(b"config")?;
    put_number(out, u64::from(config.shards()))?;
    put_number(out, u64::from(config.f()))?;
    put_number(out, u64::from(config.clients()))?;
    out.push(b'\n')
}

#[tactic(auto, unfolding(crate::specs::ReportText::foot_lines))]
fn put_foot(out: &mut Row<u8>, report: &Report) -> Result<(), NoMemory>
    ensures { OnOk result (out.new ≡ out.old ++ flat_map line (foot_lines report.now)) }
{
    put_coordinator(out, report)?;
    out.append(b"sent")?;
    put_number(out, u64::from(report.sent))?;
    out.append(b"\nend\n")
}

#[tactic(auto, unfolding(crate::specs::ReportText::coordinator_words))]
fn put_coordinator(out: &mut Row<u8>, report: &Report) -> Result<(), NoMemory>
    ensures { OnOk result (out.new ≡ out.old ++ line (coordinator_words report.now)) }
{
    out.append(b"coordinator")?;
    put_count(out, b"epoch", report.current.0)?;
    put_count(out, b"target", report.target.0)?;
    put_count(out, b"found", report.found)?;
    put_count(out, b"dropped", report.dropped)?;
    out.push(b'\n')
}
