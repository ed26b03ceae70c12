// The whole text of a page.
ghost use Rattle.std.specs.Prelude.{◌≡◌, ◌++◌, OnOk, IfOk};
ghost use Rattle.shunt_page.specs.defs.PageTexts.{style, script, style_a, style_b, style_c};
ghost use Rattle.shunt_page.specs.defs.PageTexts.{style_d, script_a, script_b, script_c, script_d};
ghost use Rattle.shunt_page.specs.defs.PageTexts.{page_start, named, table_end, counts_start};
ghost use Rattle.shunt_page.specs.defs.PageTexts.{costs_start, facts_end, findings_start};
ghost use Rattle.shunt_page.specs.defs.PageTexts.{no_findings, links, picture_start, stands_start};
ghost use Rattle.shunt_page.specs.defs.PageTexts.{orders_start, loose_start, trains_start};
ghost use Rattle.shunt_page.specs.defs.PageTexts.{page_end, title_part, heading_part, head_part};
ghost use Rattle.shunt_page.specs.defs.PageTexts.{counts_part, parts_part, costs_part};
ghost use Rattle.shunt_page.specs.defs.PageTexts.{finding_items, findings_list, findings_part};
ghost use Rattle.shunt_page.specs.defs.PageTexts.{picture_part, orders_part, trains_part};
ghost use Rattle.shunt_page.specs.defs.PageTexts.{summary_part, html_of};

use crate::records::{FindingLine, Page};
use crate::row_texts::{
    push_already_rows, push_depart_rows, push_fact, push_finding, push_loose_rows, push_order_rows,
};
use shunt_base::Name;
use shunt_picture::picture_text;
use shunt_text::Text;
use std::alloc::{AllocError, Global};

#[tactic(auto, unfolding(crate::specs::defs::PageTexts::style_a))]
fn push_style_a(text: &mut Text) -> Result<(), AllocError>
    ensures { OnOk result (text.new ≡ text.old ++ style_a) }
{
    text.push(
        b"<style>:root{color-scheme:light dark;--ground:#fff;--ink:#1c1c1c;--soft:#595959;--line:#c8ccd0;--head:#eef1f4;--lit:#fff3b0;--bad:#b00020;--link:#0b57a4}\n",
    )?;
    text.push(
        b"@media screen and (prefers-color-scheme:dark){:root{--ground:#15181c;--ink:#e4e4e4;--soft:#a8a8a8;--line:#3f464d;--head:#22272d;--lit:#4a4210;--bad:#ff8a80;--link:#8cc4ff}}\n",
    )
}

#[tactic(auto, unfolding(crate::specs::defs::PageTexts::style_b))]
fn push_style_b(text: &mut Text) -> Result<(), AllocError>
    ensures { OnOk result (text.new ≡ text.old ++ style_b) }
{
    text.push(
        b"body{margin:0;background:var(--ground);color:var(--ink);font:1rem/1.45 system-ui,sans-serif}main{max-width:110rem;margin:0 auto;padding:1rem}h1{font-size:1.6rem;margin:.2rem 0 .8rem}h2{font-size:1.2rem;margin:1.6rem 0 .4rem}\n",
    )?;
    text.push(
        b"table{border-collapse:collapse;font-variant-numeric:tabular-nums}caption{text-align:left;font-weight:600;padding:.2rem 0}th,td{text-align:left;vertical-align:top;padding:.2rem .6rem;border-bottom:1px solid var(--line)}th{font-weight:600}td.n{text-align:right}\n",
    )
}

#[tactic(auto, unfolding(crate::specs::defs::PageTexts::style_c))]
fn push_style_c(text: &mut Text) -> Result<(), AllocError>
    ensures { OnOk result (text.new ≡ text.old ++ style_c) }
{
    text.push(
        b".list thead th{background:var(--head)}.list caption{position:absolute;width:1px;height:1px;overflow:hidden;clip-path:inset(50%)}.list ol{margin:0;padding-left:1.4rem}.sides{display:flex;flex-wrap:wrap;align-items:flex-start;gap:0 3rem}.sides th{font-weight:400;color:var(--soft)}\n",
    )?;
    text.push(
        b"nav{margin:1rem 0;display:flex;flex-wrap:wrap;gap:.2rem 1.2rem}a{color:var(--link)}a:focus-visible,.wide:focus-visible{outline:3px solid var(--link);outline-offset:2px}.bad{color:var(--bad)}.out{color:var(--soft)}.wide{overflow-x:auto;position:relative}.wide .night{max-width:none;width:100%;min-width:75rem}\n",
    )
}

#[tactic(auto, unfolding(crate::specs::defs::PageTexts::style_d))]
fn push_style_d(text: &mut Text) -> Result<(), AllocError>
    ensures { OnOk result (text.new ≡ text.old ++ style_d) }
{
    text.push(
        b".lit>td,.lit>th{background:var(--lit)}g.lit rect,g:target rect{stroke:#d00;stroke-width:3}g.lit text.label{text-decoration:underline;font-weight:bold}.list tbody:empty::after{content:'none';display:block;padding:.2rem .6rem}.sign{margin:2rem 0;border-bottom:1px solid;width:20rem;padding-top:2rem}\n",
    )?;
    text.push(
        b"@media print{body{font-size:9pt}main{padding:0;max-width:none}nav{display:none}.wide{overflow:visible}.wide .night{min-width:0;width:100%;max-height:85vh}tr,li{break-inside:avoid}h2{break-after:avoid}a{color:inherit;text-decoration:none}.out{color:inherit}th,td{padding:.1rem .4rem}}</style>\n",
    )
}

#[tactic(auto, unfolding(crate::specs::defs::PageTexts::style))]
fn push_style(text: &mut Text) -> Result<(), AllocError>
    ensures { OnOk result (text.new ≡ text.old ++ style) }
{
    push_style_a(text)?;
    push_style_b(text)?;
    push_style_c(text)?;
    push_style_d(text)
}

#[tactic(auto, unfolding(crate::specs::defs::PageTexts::script_a))]
fn push_script_a(text: &mut Text) -> Result<(), AllocError>
    ensures { OnOk result (text.new ≡ text.old ++ script_a) }
{
    text.push(b"<script>(function(){'use strict'\n")?;
    text.push(
        b"var all=document.querySelectorAll('[data-block],[data-arrive],[data-depart]'),on=[]\n",
    )
}

#[tactic(auto, unfolding(crate::specs::defs::PageTexts::script_b))]
fn push_script_b(text: &mut Text) -> Result<(), AllocError>
    ensures { OnOk result (text.new ≡ text.old ++ script_b) }
{
    text.push(b"function meets(a,b){if(a.block&&b.block)return a.block===b.block\n")?;
    text.push(b"return a.arrive&&a.arrive===b.arrive||a.depart&&a.depart===b.depart}\n")
}

#[tactic(auto, unfolding(crate::specs::defs::PageTexts::script_c))]
fn push_script_c(text: &mut Text) -> Result<(), AllocError>
    ensures { OnOk result (text.new ≡ text.old ++ script_c) }
{
    text.push(
        b"function light(e){var at=e.target.closest&&e.target.closest('[data-block],[data-arrive],[data-depart]')\n",
    )?;
    text.push(b"on.forEach(function(x){x.classList.remove('lit')});on=[]\n")
}

#[tactic(auto, unfolding(crate::specs::defs::PageTexts::script_d))]
fn push_script_d(text: &mut Text) -> Result<(), AllocError>
    ensures { OnOk result (text.new ≡ text.old ++ script_d) }
{
    text.push(
        b"if(at)all.forEach(function(x){if(x===at||meets(at.dataset,x.dataset)){x.classList.add('lit');on.push(x)}})}\n",
    )?;
    text.push(
        b"document.addEventListener('mouseover',light);document.addEventListener('focusin',light)})()</script>\n",
    )
}

#[tactic(auto, unfolding(crate::specs::defs::PageTexts::script))]
fn push_script(text: &mut Text) -> Result<(), AllocError>
    ensures { OnOk result (text.new ≡ text.old ++ script) }
{
    push_script_a(text)?;
    push_script_b(text)?;
    push_script_c(text)?;
    push_script_d(text)
}

#[tactic(auto, unfolding(crate::specs::defs::PageTexts::page_start))]
fn push_page_start(text: &mut Text) -> Result<(), AllocError>
    ensures { OnOk result (text.new ≡ text.old ++ page_start) }
{
    text.push(
        b"<!DOCTYPE html>\n<html lang='en'>\n<head>\n<meta charset='utf-8'>\n<meta name='viewport' content='width=device-width'>\n<title>",
    )
}

#[tactic(auto, unfolding(crate::specs::defs::PageTexts::named))]
fn push_named(text: &mut Text) -> Result<(), AllocError>
    ensures { OnOk result (text.new ≡ text.old ++ named) }
{
    text.push(b": plan of the night")
}

#[tactic(auto, unfolding(crate::specs::defs::PageTexts::table_end))]
fn push_table_end(text: &mut Text) -> Result<(), AllocError>
    ensures { OnOk result (text.new ≡ text.old ++ table_end) }
{
    text.push(b"</tbody>\n</table>\n</div>\n</section>\n")
}

#[tactic(auto, unfolding(crate::specs::defs::PageTexts::counts_start))]
fn push_counts_start(text: &mut Text) -> Result<(), AllocError>
    ensures { OnOk result (text.new ≡ text.old ++ counts_start) }
{
    text.push(b"<div class='sides'>\n<table>\n<caption>Units and blocks</caption>\n")
}

#[tactic(auto, unfolding(crate::specs::defs::PageTexts::costs_start))]
fn push_costs_start(text: &mut Text) -> Result<(), AllocError>
    ensures { OnOk result (text.new ≡ text.old ++ costs_start) }
{
    text.push(b"</table>\n<table>\n<caption>Cost</caption>\n")
}

#[tactic(auto, unfolding(crate::specs::defs::PageTexts::facts_end))]
fn push_facts_end(text: &mut Text) -> Result<(), AllocError>
    ensures { OnOk result (text.new ≡ text.old ++ facts_end) }
{
    text.push(b"</table>\n</div>\n")
}

#[tactic(auto, unfolding(crate::specs::defs::PageTexts::findings_start))]
fn push_findings_start(text: &mut Text) -> Result<(), AllocError>
    ensures { OnOk result (text.new ≡ text.old ++ findings_start) }
{
    text.push(b"<h2 id='findings'>Findings</h2>\n")
}

#[tactic(auto, unfolding(crate::specs::defs::PageTexts::no_findings))]
fn push_no_findings(text: &mut Text) -> Result<(), AllocError>
    ensures { OnOk result (text.new ≡ text.old ++ no_findings) }
{
    text.push(b"<p>There are none.</p>\n")
}

#[tactic(auto, unfolding(crate::specs::defs::PageTexts::links))]
fn push_links(text: &mut Text) -> Result<(), AllocError>
    ensures { OnOk result (text.new ≡ text.old ++ links) }
{
    text.push(
        b"<nav aria-label='parts'>\n<a href='#picture'>Picture</a>\n<a href='#stands'>Stands already</a>\n<a href='#orders'>Orders</a>\n<a href='#loose'>Not on a track</a>\n<a href='#trains'>Departing trains</a>\n</nav>\n",
    )
}

#[tactic(auto, unfolding(crate::specs::defs::PageTexts::picture_start))]
fn push_picture_start(text: &mut Text) -> Result<(), AllocError>
    ensures { OnOk result (text.new ≡ text.old ++ picture_start) }
{
    text.push(
        b"<section>\n<h2 id='picture'>Picture</h2>\n<div class='wide' role='region' aria-label='Picture' tabindex='0'>\n",
    )
}

#[tactic(auto, unfolding(crate::specs::defs::PageTexts::stands_start))]
fn push_stands_start(text: &mut Text) -> Result<(), AllocError>
    ensures { OnOk result (text.new ≡ text.old ++ stands_start) }
{
    text.push(
        b"<section>\n<h2 id='stands'>Stands already</h2>\n<div class='wide' role='region' aria-label='Stands already' tabindex='0'>\n<table class='list'>\n<caption>Stands already</caption>\n<thead><tr><th scope='col'>block</th><th scope='col'>units</th><th scope='col'>train</th><th scope='col'>track</th><th scope='col'>stands</th><th scope='col'>load, dm</th><th scope='col'>length, dm</th></tr></thead>\n<tbody>",
    )
}

#[tactic(auto, unfolding(crate::specs::defs::PageTexts::orders_start))]
fn push_orders_start(text: &mut Text) -> Result<(), AllocError>
    ensures { OnOk result (text.new ≡ text.old ++ orders_start) }
{
    text.push(
        b"<section>\n<h2 id='orders'>Orders</h2>\n<div class='wide' role='region' aria-label='Orders' tabindex='0'>\n<table class='list'>\n<caption>Orders</caption>\n<thead><tr><th scope='col'>time</th><th scope='col'>order</th><th scope='col'>block</th><th scope='col'>units</th><th scope='col'>train</th><th scope='col'>platform</th><th scope='col'>track</th><th scope='col'>side</th><th scope='col'>stands</th><th scope='col'>load, dm</th><th scope='col'>length, dm</th></tr></thead>\n<tbody>",
    )
}

#[tactic(auto, unfolding(crate::specs::defs::PageTexts::loose_start))]
fn push_loose_start(text: &mut Text) -> Result<(), AllocError>
    ensures { OnOk result (text.new ≡ text.old ++ loose_start) }
{
    text.push(
        b"<section>\n<h2 id='loose'>Not on a track</h2>\n<div class='wide' role='region' aria-label='Not on a track' tabindex='0'>\n<table class='list'>\n<caption>Not on a track</caption>\n<thead><tr><th scope='col'>block</th><th scope='col'>units</th><th scope='col'>comes with</th><th scope='col'>at</th><th scope='col'>platform</th><th scope='col'>goes with</th><th scope='col'>at</th><th scope='col'>platform</th><th scope='col'>why</th></tr></thead>\n<tbody>",
    )
}

#[tactic(auto, unfolding(crate::specs::defs::PageTexts::trains_start))]
fn push_trains_start(text: &mut Text) -> Result<(), AllocError>
    ensures { OnOk result (text.new ≡ text.old ++ trains_start) }
{
    text.push(
        b"<section>\n<h2 id='trains'>Departing trains</h2>\n<div class='wide' role='region' aria-label='Departing trains' tabindex='0'>\n<table class='list'>\n<caption>Departing trains</caption>\n<thead><tr><th scope='col'>time</th><th scope='col'>train</th><th scope='col'>platform</th><th scope='col'>units from position 1 on</th></tr></thead>\n<tbody>",
    )
}

#[tactic(auto, unfolding(crate::specs::defs::PageTexts::page_end))]
fn push_page_end(text: &mut Text) -> Result<(), AllocError>
    ensures { OnOk result (text.new ≡ text.old ++ page_end) }
{
    text.push(b"<p class='sign'>Seen and signed:</p>\n</main>\n")
}

// The head of the page.
#[tactic(auto, unfolding(crate::specs::defs::PageTexts::head_part))]
fn push_head(text: &mut Text, station: &Name) -> Result<(), AllocError>
    ensures { OnOk result (text.new ≡ text.old ++ head_part station.now) }
{
    push_title(text, station)?;
    push_style(text)?;
    push_heading(text, station)
}

#[tactic(auto, unfolding(crate::specs::defs::PageTexts::title_part))]
fn push_title(text: &mut Text, station: &Name) -> Result<(), AllocError>
    ensures { OnOk result (text.new ≡ text.old ++ title_part station.now) }
{
    push_page_start(text)?;
    text.push(station.bytes())?;
    push_named(text)?;
    text.push(b"</title>\n")
}

#[tactic(auto, unfolding(crate::specs::defs::PageTexts::heading_part))]
fn push_heading(text: &mut Text, station: &Name) -> Result<(), AllocError>
    ensures { OnOk result (text.new ≡ text.old ++ heading_part station.now) }
{
    text.push(b"</head>\n<body>\n<main>\n<h1>")?;
    text.push(station.bytes())?;
    push_named(text)?;
    text.push(b"</h1>\n")
}

// How many units, blocks, blocks without a stay and findings there are.
#[tactic(auto, unfolding(crate::specs::defs::PageTexts::counts_part))]
fn push_counts(text: &mut Text, page: &Page) -> Result<(), AllocError>
    ensures { OnOk result (text.new ≡ text.old ++ counts_part page.now) }
{
    push_counts_start(text)?;
    push_fact(text, b"units", page.units)?;
    push_fact(text, b"blocks", page.blocks)?;
    push_fact(text, b"blocks not on a track", page.loose.len() as u64)?;
    push_fact(text, b"findings", page.findings.len() as u64)
}

// What the blocks cost, in parts.
#[tactic(auto, unfolding(crate::specs::defs::PageTexts::parts_part))]
fn push_parts(text: &mut Text, page: &Page) -> Result<(), AllocError>
    ensures { OnOk result (text.new ≡ text.old ++ parts_part page.now) }
{
    push_costs_start(text)?;
    push_fact(text, b"splits", page.parts.splits)?;
    push_fact(text, b"couplings", page.parts.couplings)?;
    push_fact(text, b"ways in", page.parts.ways_in)?;
    push_fact(text, b"ways out", page.parts.ways_out)?;
    push_fact(text, b"unparked blocks", page.parts.unparked)
}

#[tactic(auto, unfolding(crate::specs::defs::PageTexts::costs_part))]
fn push_costs(text: &mut Text, page: &Page) -> Result<(), AllocError>
    ensures { OnOk result (text.new ≡ text.old ++ costs_part page.now) }
{
    push_parts(text, page)?;
    push_fact(text, b"together", page.cost)?;
    push_fact(text, b"stated by the plan", page.stated)?;
    push_facts_end(text)
}

fn push_finding_items(text: &mut Text, findings: &[FindingLine]) -> Result<(), AllocError>
    ensures { OnOk result (text.new ≡ text.old ++ finding_items findings.now) }
{
    for finding in findings {
        push_finding(text, finding)?;
    }
    Ok(())
}

#[tactic(auto, unfolding(crate::specs::defs::PageTexts::findings_list))]
fn push_findings_list(text: &mut Text, findings: &[FindingLine]) -> Result<(), AllocError>
    ensures { OnOk result (text.new ≡ text.old ++ findings_list findings.now) }
{
    text.push(b"<ol class='bad'>\n")?;
    push_finding_items(text, findings)?;
    text.push(b"</ol>\n")
}

#[tactic(auto, unfolding(crate::specs::defs::PageTexts::findings_part))]
fn push_findings(text: &mut Text, findings: &[FindingLine]) -> Result<(), AllocError>
    ensures { OnOk result (text.new ≡ text.old ++ findings_part findings.now) }
{
    push_findings_start(text)?;
    if findings.is_empty() {
        return push_no_findings(text);
    }
    push_findings_list(text, findings)
}

#[tactic(auto, unfolding(crate::specs::defs::PageTexts::picture_part))]
fn push_picture(text: &mut Text, alloc: Global, page: &Page) -> Result<(), AllocError>
    ensures { OnOk result (text.new ≡ text.old ++ picture_part page.now) }
{
    let shown = picture_text(alloc, &page.picture)?;
    push_picture_start(text)?;
    text.push(&shown)?;
    text.push(b"</div>\n</section>\n")
}

#[tactic(auto, unfolding(crate::specs::defs::PageTexts::orders_part))]
fn push_orders(text: &mut Text, page: &Page) -> Result<(), AllocError>
    ensures { OnOk result (text.new ≡ text.old ++ orders_part page.now) }
{
    let rows = page.rows.as_slice();
    push_stands_start(text)?;
    push_already_rows(text, rows)?;
    push_table_end(text)?;
    push_orders_start(text)?;
    push_order_rows(text, rows)?;
    push_table_end(text)
}

#[tactic(auto, unfolding(crate::specs::defs::PageTexts::trains_part))]
fn push_trains(text: &mut Text, page: &Page) -> Result<(), AllocError>
    ensures { OnOk result (text.new ≡ text.old ++ trains_part page.now) }
{
    push_loose_start(text)?;
    push_loose_rows(text, page.loose.as_slice())?;
    push_table_end(text)?;
    push_trains_start(text)?;
    push_depart_rows(text, page.departs.as_slice())?;
    push_table_end(text)
}

// What stands before the picture.
#[tactic(auto, unfolding(crate::specs::defs::PageTexts::summary_part))]
fn push_summary(text: &mut Text, page: &Page) -> Result<(), AllocError>
    ensures { OnOk result (text.new ≡ text.old ++ summary_part page.now) }
{
    push_head(text, &page.station)?;
    push_counts(text, page)?;
    push_costs(text, page)?;
    push_findings(text, page.findings.as_slice())?;
    push_links(text)
}

/// The page as HTML, in one file: it names no other file, and without its script all can be read.
///
/// The text is a function of the page alone. The error is want of memory.
#[tactic(auto, unfolding(crate::specs::defs::PageTexts::html_of))]
pub fn page_text(alloc: Global, page: &Page) -> Result<Vec<u8>, AllocError>
    ensures { IfOk result (λ v. v.items ≡ html_of page.now) }
{
    let mut text = Text::new(alloc);
    push_summary(&mut text, page)?;
    push_picture(&mut text, alloc, page)?;
    push_orders(&mut text, page)?;
    push_trains(&mut text, page)?;
    push_page_end(&mut text)?;
    push_script(&mut text)?;
    text.push(b"</body>\n</html>\n")?;
    Ok(text.into_bytes())
}
