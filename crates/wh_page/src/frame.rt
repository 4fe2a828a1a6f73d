//! Writes what stands above the picture: the verdict, the facts of the run, and the difference.

ghost use Rattle.std.specs.Prelude.{◌≡◌, Some};
ghost use Rattle.std.specs.Fmt.{DisplaysOnOk};
ghost use Rattle.wh_html.specs.Escaping.{escaped};
ghost use Rattle.wh_html.specs.Html.{bytes, each};
ghost use Rattle.wh_page.specs.Frames.{head_html, verdict_class, verdict_html, fact_html, at_html, sides_html, difference_html, frame_html};

use crate::style::{STYLE_OF_PARTS, STYLE_OF_PICTURE, STYLE_OF_TEXT};
use std::fmt;
use wh_html::{Difference, Escaped, Fact, Page};

/// The most characters of a name or a fact that a page shows.
pub(crate) const NAME: usize = 300;

/// The most characters of the outcome of a thing, and of the line of an event: of the failure and its
/// causes that they tell.
pub(crate) const WORDS: usize = 600;

/// The most characters of a verdict: more than any verdict on a file has.
const VERDICT: usize = 400;

/// The most characters of a side of a difference.
const SIDE: usize = 2_000;

/// The title as the page shows it.
#[derive(Drop)]
struct Title<'a>(&'a Page);

impl fmt::Display for Title<'_> {
    ghost output = { λ t. Some (escaped 300 t.0.now.title) };

    fn fmt<W: fmt::Write>(&self, f: &mut fmt::Formatter<W>) -> fmt::Result {
        let title = Escaped {
            text: &self.0.title,
            most: NAME,
        };
        write!(f, "{title}")
    }
}

/// The verdict as the page shows it.
#[derive(Drop)]
struct VerdictText<'a>(&'a Page);

impl fmt::Display for VerdictText<'_> {
    ghost output = { λ v. Some (escaped 400 v.0.now.verdict) };

    fn fmt<W: fmt::Write>(&self, f: &mut fmt::Formatter<W>) -> fmt::Result {
        let verdict = Escaped {
            text: &self.0.verdict,
            most: VERDICT,
        };
        write!(f, "{verdict}")
    }
}

/// What precedes the body: the title of the page and the style sheet.
#[derive(Drop)]
struct Head<'a>(&'a Page);

impl fmt::Display for Head<'_> {
    ghost output = { λ h. Some (bytes (head_html h.0.now)) };

    #[tactic(auto, unfolding(crate::specs::Frames::head_html))]
    fn fmt<W: fmt::Write>(&self, f: &mut fmt::Formatter<W>) -> fmt::Result {
        let title = Title(self.0);
        let verdict = VerdictText(self.0);
        write!(
            f,
            "<!doctype html>\n<html lang=\"en\">\n<head>\n<meta charset=\"utf-8\">\n<meta name=\"viewport\" content=\"width=device-width, initial-scale=1\">\n<meta name=\"color-scheme\" content=\"light dark\">\n<meta http-equiv=\"Content-Security-Policy\" content=\"default-src 'none'; style-src 'unsafe-inline'\">\n<title>{title}: {verdict}</title>\n<style>\n{STYLE_OF_TEXT}{STYLE_OF_PARTS}{STYLE_OF_PICTURE}</style>\n</head>\n<body>\n"
        )
    }
}

/// Returns the class of a verdict in the style sheet.
fn verdict_class(good: Option<bool>) -> &'static str
    ensures { result.now ≡ verdict_class good }
{
    match good {
        Some(true) => "ok",
        Some(false) => "bad",
        None => "unjudged",
    }
}

/// The verdict.
#[derive(Drop)]
struct VerdictHeader<'a>(&'a Page);

impl fmt::Display for VerdictHeader<'_> {
    ghost output = { λ v. Some (bytes (verdict_html v.0.now)) };

    #[tactic(auto, unfolding(crate::specs::Frames::verdict_html))]
    fn fmt<W: fmt::Write>(&self, f: &mut fmt::Formatter<W>) -> fmt::Result {
        let title = Title(self.0);
        let verdict = VerdictText(self.0);
        let class = verdict_class(self.0.good);
        write!(
            f,
            "<header>\n<h1>{title}</h1>\n<p class=\"verdict {class}\">{verdict}</p>\n"
        )
    }
}

/// A fact.
#[derive(Drop)]
struct FactRow<'a>(&'a Fact);

impl fmt::Display for FactRow<'_> {
    ghost output = { λ r. Some (bytes (fact_html r.0.now)) };

    fn fmt<W: fmt::Write>(&self, f: &mut fmt::Formatter<W>) -> fmt::Result {
        let name = Escaped {
            text: &self.0.name,
            most: NAME,
        };
        let value = Escaped {
            text: &self.0.value,
            most: NAME,
        };
        write!(f, "<div><dt>{name}</dt><dd>{value}</dd></div>\n")
    }
}

/// Facts.
#[derive(Drop)]
struct FactRows<'a>(&'a [Fact]);

impl fmt::Display for FactRows<'_> {
    ghost output = { λ r. Some (bytes (each fact_html r.0.now)) };

    fn fmt<W: fmt::Write>(&self, f: &mut fmt::Formatter<W>) -> fmt::Result {
        for fact in self.0 {
            let row = FactRow(fact);
            write!(f, "{row}")?;
        }
        Ok(())
    }
}

/// The event at which a difference is found, if there is one.
#[derive(Clone, Copy)]
struct At(Option<u64>);

impl fmt::Display for At {
    ghost output = { λ a. Some (bytes (at_html a.0)) };

    fn fmt<W: fmt::Write>(&self, f: &mut fmt::Formatter<W>) -> fmt::Result {
        match self.0 {
            Some(event) => write!(f, ", at event {event}"),
            None => Ok(()),
        }
    }
}

/// Both sides of a difference.
#[derive(Drop)]
struct Sides<'a>(&'a Difference);

impl fmt::Display for Sides<'_> {
    ghost output = { λ s. Some (bytes (sides_html s.0.now)) };

    #[tactic(auto, unfolding(crate::specs::Frames::sides_html))]
    fn fmt<W: fmt::Write>(&self, f: &mut fmt::Formatter<W>) -> fmt::Result {
        let at = At(self.0.event);
        let code = Escaped {
            text: &self.0.code,
            most: SIDE,
        };
        let history = Escaped {
            text: &self.0.history,
            most: SIDE,
        };
        write!(
            f,
            "<section class=\"difference\">\n<h2>The difference{at}</h2>\n<div class=\"sides\">\n<div class=\"side\"><h3>Your code gives</h3><pre><code>{code}</code></pre></div>\n<div class=\"side\"><h3>The history has</h3><pre><code>{history}</code></pre></div>\n</div>\n</section>\n"
        )
    }
}

/// The difference, if there is one.
#[derive(Drop)]
struct DifferencePart<'a>(&'a Option<Difference>);

impl fmt::Display for DifferencePart<'_> {
    ghost output = { λ d. Some (bytes (difference_html d.0.now)) };

    fn fmt<W: fmt::Write>(&self, f: &mut fmt::Formatter<W>) -> fmt::Result {
        match self.0 {
            Some(difference) => {
                let sides = Sides(difference);
                write!(f, "{sides}")
            }
            None => Ok(()),
        }
    }
}

/// All that precedes the picture, from the first byte of the page on.
#[derive(Drop)]
pub(crate) struct Frame<'a>(pub(crate) &'a Page);

impl fmt::Display for Frame<'_> {
    ghost output = { λ r. Some (bytes (frame_html r.0.now)) };

    #[tactic(auto, unfolding(crate::specs::Frames::frame_html))]
    fn fmt<W: fmt::Write>(&self, f: &mut fmt::Formatter<W>) -> fmt::Result {
        let head = Head(self.0);
        let verdict = VerdictHeader(self.0);
        let facts = FactRows(self.0.facts.get());
        let difference = DifferencePart(&self.0.difference);
        write!(
            f,
            "{head}{verdict}<dl class=\"facts\">\n{facts}</dl>\n</header>\n<main>\n{difference}"
        )
    }
}
