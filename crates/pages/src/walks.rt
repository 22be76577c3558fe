// The pages of some bytes and the descriptors of a run, one after the other.
ghost use Rattle.std.specs.Prelude.{◌≡◌, ℕ, List};
ghost use Rattle.std.specs.Iterator.{YieldsFirst, YieldsFirstRef, item_count};
ghost use Rattle.lists.specs.Pages.{pages_of};
ghost use Rattle.paper.specs.Pages.{descriptors_in};
ghost use Rattle.paper.specs.declared.state.Descriptor.{Descriptor};

use crate::page;
use paper::state::Descriptor;
use std::marker::Model;

// The pages that are left, each beginning where the last one ended.
#[derive(Drop)]
pub struct Pages<'a> {
    rest: &'a [u8],
}

impl<'a> Model for Pages<'a> {
    ghost Value = { List (List ℕ) };

    ghost view = { λ walk. pages_of walk.rest.now };
}

impl<'a> Iterator for Pages<'a> {
    type Item = &'a [u8];

    ghost next_gives = { YieldsFirstRef (λ left. left) };

    ghost remaining = { item_count (λ left. left) };

    fn next(&mut self) -> Option<&'a [u8]> {
        let rest = self.rest;
        if rest.is_empty() {
            return None;
        }
        self.rest = page::after_page(rest);
        Some(page::first_page(rest))
    }
}

impl<'a> Pages<'a> {
    // The same pages, for a walk beside this one.
    pub fn left(&self) -> Pages<'a>
        ensures { result ≡ self.now }
    {
        Pages { rest: self.rest }
    }
}

pub fn pages_of(bytes: &[u8]) -> Pages<'_>
    ensures { result ≡ pages_of bytes.now }
{
    Pages { rest: bytes }
}

// The descriptors that are left of a run.
#[derive(Drop)]
pub struct Descriptors<'a> {
    run: &'a [u8],
}

impl<'a> Model for Descriptors<'a> {
    ghost Value = { List Descriptor };

    ghost view = { λ walk. descriptors_in walk.run.now };
}

impl<'a> Iterator for Descriptors<'a> {
    type Item = Descriptor;

    ghost next_gives = { YieldsFirst (λ left. left) };

    ghost remaining = { item_count (λ left. left) };

    fn next(&mut self) -> Option<Descriptor> {
        let (first, others) = self.run.split_first_chunk::<20>()?;
        self.run = others;
        Some(page::descriptor(first))
    }
}

impl<'a> Descriptors<'a> {
    // The same descriptors, for a walk beside this one.
    pub fn left(&self) -> Descriptors<'a>
        ensures { result ≡ self.now }
    {
        Descriptors { run: self.run }
    }
}

pub fn descriptors_in(run: &[u8]) -> Descriptors<'_>
    ensures { result ≡ descriptors_in run.now }
{
    Descriptors { run }
}
