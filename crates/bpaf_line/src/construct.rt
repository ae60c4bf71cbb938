//! How a state begins, and how it is copied.
ghost use Rattle.std.specs.Prelude.{ℕ, ◌≡◌, ◌*◌, ◌<◌, ◌≤◌, length, IfOk, OnOk, IfSome, All, IsUtf8};
ghost use Rattle.std.specs.Prelude.{map, option_map, option_to_list, string_bytes, [], true};
ghost use Rattle.std.specs.Option.{option_map_or};
ghost use Rattle.bpaf_words.specs.Arguments.{words_of, given_of, given_name, env_of, entries_of};
ghost use Rattle.bpaf_words.specs.Line.{knowing, known_at};
ghost use Rattle.bpaf_line.specs.Situation.{is_marker, beginning};
ghost use Rattle.bpaf_line.specs.{Taking.Constructs, Inside.shared_entries};
ghost use Rattle.bpaf_index.specs.Bits.{has_bit};

use crate::aside::Aside;
use crate::error::Message;
use crate::state::State;
use bpaf_doc::Text;
use bpaf_index::bits;
use bpaf_index::chains::{Chains, count_to_last_key};
use bpaf_words::{Arg, Args, Line, line_of};
use std::alloc::{AllocError, Global};
use std::collections::BTreeMap;
use std::rc::RcSlice;

impl State {
    /// The state at the beginning of the words' line: all of it is present but the first `--`, the
    /// scope is the whole line, and the path is the set name.
    ///
    /// `short_flags` and `short_args` are the known short names, by which joined words such as
    /// `-vn3` are read. Refused with Ambiguity exactly where the words have no line, naming the
    /// first ambiguous word and its character; or for want of memory.
    pub fn construct(
        alloc: Global,
        args: Args<'_>,
        short_flags: &[char],
        short_args: &[char],
    ) -> Result<State, Message>
        ensures texts { OnOk result (All IsUtf8 (words_of args.entry)) }
        ensures answer { Constructs
            (knowing (record { flags = short_flags.now; arguments = short_args.now }))
            (given_of args.entry) result }
    {
        State::construct_by(alloc, args, short_flags, short_args, false)
    }

    /// The same, where a negative number is a word: before the first `--` a word of `-` and one or
    /// more ASCII digits, and nothing else, is a Word. bpaf has no such call.
    ///
    /// ```text
    /// -5     a Word; by `construct` the key `5`
    /// -5=    the key `5` and its empty value, as by `construct`
    /// -1a    joined letters, as by `construct`
    /// ```
    pub fn construct_numbers(
        alloc: Global,
        args: Args<'_>,
        short_flags: &[char],
        short_args: &[char],
    ) -> Result<State, Message>
        ensures texts { OnOk result (All IsUtf8 (words_of args.entry)) }
        ensures answer { Constructs
            (known_at true (record { flags = short_flags.now; arguments = short_args.now }))
            (given_of args.entry) result }
    {
        State::construct_by(alloc, args, short_flags, short_args, true)
    }

    /// The state at the beginning of the words' line, with negative numbers as words or not.
    fn construct_by(
        alloc: Global,
        args: Args<'_>,
        short_flags: &[char],
        short_args: &[char],
        numbers: bool,
    ) -> Result<State, Message>
        ensures texts { OnOk result (All IsUtf8 (words_of args.entry)) }
        ensures answer { Constructs
            (known_at numbers (record { flags = short_flags.now; arguments = short_args.now }))
            (given_of args.entry) result }
    {
        let line = line_of(alloc, args.words(), short_flags, short_args, numbers)?;
        Ok(State::of_line(alloc, args, line)?)
    }

    /// The state at the beginning of a line, with the name and the environment that a run is given:
    /// all of the line is present but the first `--`, the scope is the whole line, and the path is
    /// the set name. bpaf has no such call.
    ///
    /// Refused only for want of memory.
    pub fn of_line(alloc: Global, args: Args<'_>, line: Line) -> Result<State, AllocError>
        requires { IfSome line.marker (λ p. p < length line.items.items) }
        ensures { IfOk result (λ state. state ≡ beginning (record {
          line = line.items.items;
          marker = line.marker;
          env = env_of args.entry;
          name = given_name args.entry;
        })) }
    {
        let env = copy_env(alloc, args.env())?;
        let end = line.items.len();
        let bits = first_bits(alloc, line.marker, end)?;
        let (path, name) = first_path(alloc, args.name())?;
        let left = end - usize::from(line.marker.is_some());
        let first = bits::first_clear(&bits, 0, end);
        let keys_end = count_to_last_key(&line.items);
        let chains = Chains::of_line(alloc, &line.items, keys_end)?;
        Ok(State {
            items: line.items,
            marker: line.marker,
            env,
            keys_end,
            behind: keys_end,
            chains,
            bits,
            trail: Vec::with_capacity(alloc, end)?,
            conflicts: Vec::new(alloc),
            start: 0,
            end,
            left,
            first,
            aside: Aside::nothing(),
            path,
            name,
            current: None,
        })
    }

    /// An equal state, which shares the environment (bpaf's `Clone`), and whose trail has room for
    /// all places too; refused only for want of memory. The items are copied: a parse, which goes
    /// back by marks, makes no copies, and so shares nothing.
    pub fn copy(&self) -> Result<State, AllocError>
        ensures { IfOk result (λ state. state ≡ self.now) }
    {
        let alloc = self.alloc();
        let items = copy_items(alloc, self.items.as_slice())?;
        let env = share_env(&self.env)?;
        let chains = Chains::of_line(alloc, &items, count_to_last_key(&items))?;
        let bits = Vec::from_slice(alloc, self.bits.as_slice())?;
        let mut trail = Vec::with_capacity(alloc, self.items.len())?;
        trail.extend_from_slice(self.trail.as_slice())?;
        let conflicts = Vec::from_slice(alloc, self.conflicts.as_slice())?;
        let path = copy_path(alloc, self.path.as_slice())?;
        let name = Text::copy_of(&self.name)?;
        Ok(State {
            items,
            marker: self.marker,
            env,
            keys_end: self.keys_end,
            behind: self.behind,
            chains,
            bits,
            trail,
            conflicts,
            start: self.start,
            end: self.end,
            left: self.left,
            first: self.first,
            aside: Aside::nothing(),
            path,
            name,
            current: self.current,
        })
    }
}

/// Equal items.
fn copy_items(alloc: Global, items: &[Arg]) -> Result<Vec<Arg>, AllocError>
    ensures { IfOk result (λ copy. copy.items ≡ items.now) }
{
    let mut copy = Vec::with_capacity(alloc, items.len())?;
    for item in items {
        copy.push(copy_item(item)?)?;
    }
    Ok(copy)
}

/// An equal item.
fn copy_item(item: &Arg) -> Result<Arg, AllocError>
    ensures { IfOk result (λ copy. copy ≡ item.now) }
{
    Ok(match item {
        Arg::Short(c, attached, word) => Arg::Short(*c, *attached, word.copy()?),
        Arg::Long(name, attached, word) => Arg::Long(name.copy()?, *attached, word.copy()?),
        Arg::ArgWord(text) => Arg::ArgWord(text.copy()?),
        Arg::Word(text) => Arg::Word(text.copy()?),
        Arg::PosWord(text) => Arg::PosWord(text.copy()?),
    })
}

/// Words for that many places, in which only the bit of the marker is set.
#[tactic(auto, using(bpaf_index::proofs::BitSets::has_bit_zero))]
fn first_bits(alloc: Global, marker: Option<usize>, count: usize) -> Result<Vec<u64>, AllocError>
    requires { IfSome marker (λ p. p < count) }
    ensures room { IfOk result (λ words. count ≤ 64 * length words.items) }
    ensures bits { IfOk result (λ words.
        (p : ℕ) → has_bit words.items p ≡ is_marker marker p) }
{
    let mut words = vec![in alloc; 0; count / 64 + 1]?;
    let Some(place) = marker else {
        return Ok(words);
    };
    bits::set(&mut words, place);
    Ok(words)
}

/// A path of the set name alone, and that name.
fn first_path(alloc: Global, name: Option<&str>) -> Result<(Vec<String>, Option<Text>), AllocError>
    ensures path { IfOk result (λ r.
        map string_bytes r.0.items ≡ option_to_list (option_map (λ n. n.now) name.entry)) }
    ensures name { IfOk result (λ r. r.1 ≡ option_map (λ n. n.now) name.entry) }
{
    match name {
        None => Ok((Vec::new(alloc), None)),
        Some(name) => {
            let mut path = Vec::with_capacity(alloc, 1)?;
            path.push(String::from_str(alloc, name)?)?;
            Ok((path, Some(Text::new(alloc, name)?)))
        }
    }
}

/// The entries of an environment, where there is one.
fn copy_env(
    alloc: Global,
    env: Option<&BTreeMap<String, String>>,
) -> Result<Option<RcSlice<(Text, Text)>>, AllocError>
    ensures { IfOk result (λ entries.
        shared_entries entries ≡ option_map_or (λ e. entries_of e.now) env.entry []) }
{
    match env {
        None => Ok(None),
        Some(env) => Ok(Some(RcSlice::from_vec(copy_entries(alloc, env)?)?)),
    }
}

/// The same entries, shared; refused only for want of memory.
fn share_env(
    env: &Option<RcSlice<(Text, Text)>>,
) -> Result<Option<RcSlice<(Text, Text)>>, AllocError>
    ensures { IfOk result (λ copy. shared_entries copy ≡ shared_entries env.now) }
{
    match env {
        Some(env) => Ok(Some(env.clone()?)),
        None => Ok(None),
    }
}

/// The entries of an environment.
fn copy_entries(
    alloc: Global,
    env: &BTreeMap<String, String>,
) -> Result<Vec<(Text, Text)>, AllocError>
    ensures { IfOk result (λ entries. entries.items ≡ entries_of env.now) }
{
    let mut entries = Vec::new(alloc);
    for (name, value) in env.iter() {
        entries.push((
            Text::new(alloc, name.as_str())?,
            Text::new(alloc, value.as_str())?,
        ))?;
    }
    Ok(entries)
}

/// An equal path.
pub(crate) fn copy_path(alloc: Global, path: &[String]) -> Result<Vec<String>, AllocError>
    ensures { IfOk result (λ copy. map string_bytes copy.items ≡ map string_bytes path.now) }
{
    let mut copy = Vec::new(alloc);
    for entry in path {
        copy.push(String::from_str(alloc, entry.as_str())?)?;
    }
    Ok(copy)
}
