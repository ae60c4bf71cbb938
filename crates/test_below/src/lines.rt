//! The worked rows on items, and on the calls of a state that take, scope and name.
use crate::calls::{walk, walk_numbers};
use std::test::Fail;

/// What words spell, by the short names that are known; the last have no line, or stand near one.
const SPELLED: &str = "
'' x - | / | spelled | Word ;Word x;Word -;
--n --n=v --n= --=x | / | spelled | \
    Long --n false --n;Long --n true --n=v;ArgWord v;Long --n true --n=;ArgWord ;\
    Long -- true --=x;ArgWord x;
--= --- | / | spelled | Long -- true --=;ArgWord ;Long --- false ---;
-c -c=v -cr=v | / | spelled | \
    Short -c false -c;Short -c true -c=v;ArgWord v;Short -c true -cr=v;ArgWord r=v;
-==x -=x -= | / | spelled | Short -= true -==x;ArgWord x;Word -=x;Short -= false -=;
# items_of_name_beyond_ascii
-ñ=x | / | spelled | Short -ñ true -ñ=x;ArgWord x;
# items_of_attached_value_with_equals
-Obits=2048 | / | spelled | Short -O true -Obits=2048;ArgWord bits=2048;
# other names, known and not
-ñ | / | spelled | Short -ñ false -ñ;
-Obits=2048 | b/O | spelled | Short -O true -Obits=2048;ArgWord bits=2048;
# unknown_joined_word_is_one_word
-abc | / | spelled | Word -abc;
# other words
-жжж | ж/ | spelled | Short -ж false -жжж;Short -ж false ;Short -ж false ;
-vn3 -vn -vx | v/n | spelled | \
    Short -v false -vn3;Short -n true -vn3;Word 3;Short -v false -vn;Short -n false -vn;Word -vx;
a -- -- -b | / | spelled | Word a;none;PosWord --;PosWord -b;
# the last character is ambiguous
-va | va/a | len | ambiguity -va 2;
# the first character is ambiguous
-abc | abc/a | len | ambiguity -abc 1;
x -abc | abc/a | len | ambiguity -abc 1;
# number_of_known_names_is_ambiguous
-12 | 12/1 | len | ambiguity -12 1;
-b | abc/a | len | 1;
-- -va | va/a | len | 1;
";

#[test]
fn words_spell_items(rt: HostRuntime) -> Result<(), Fail> {
    walk(rt.alloc(), SPELLED)
}

/// What words spell by which negative numbers are words.
const NUMBERS: &str = "
-5 | / | spelled | Word -5;
-12 | / | spelled | Word -12;
# digit_with_equals_is_a_key
-5= | / | spelled | Short -5 true -5=;ArgWord ;
# digit_with_a_letter_is_a_word
-1a | / | spelled | Word -1a;
# dash_alone_is_a_word
- | / | spelled | Word -;
# digit_beyond_ascii_is_a_key
-٣ | / | spelled | Short -٣ false -٣;
--5 | / | spelled | Long --5 false --5;
-5.5 | / | spelled | Word -5.5;
# number_of_known_names_is_a_number
-12 | 12/1 | spelled | Word -12;
-n -5 -- -6 | /n | spelled | Short -n false -n;Word -5;none;PosWord -6;
# letters behind a number are joined to it
-1a | a/1 | spelled | Short -1 true -1a;Word a;
-a1 | a/a | spelled | ambiguity -a1 1;
";

#[test]
fn numbers_spell_words(rt: HostRuntime) -> Result<(), Fail> {
    walk_numbers(rt.alloc(), NUMBERS)
}

/// Flags, arguments and words that are taken.
const TAKEN: &str = "
# detached_long_value_taken
--speed 12 | / | take_arg --speed, is_empty, current | Some(\"12\");true;Some(1);
# attached_long_value_with_dash_taken
--speed=-12 | / | take_adjacent --speed, is_empty, current | Some(\"-12\");true;Some(1);
# attached_long_value_taken
--speed=12 | / | take_arg --speed, is_empty, current | Some(\"12\");true;Some(1);
# attached_short_value_with_dash_taken
-s=-12 | / | take_adjacent -s, is_empty, current | Some(\"-12\");true;Some(1);
# attached_short_value_with_dash_taken_not_adjacent
-s=-12 | / | take_arg -s, is_empty, current | Some(\"-12\");true;Some(1);
# attached_short_value_taken
-s=12 | / | take_arg -s, is_empty, current | Some(\"12\");true;Some(1);
# detached_short_value_taken
-s 12 | / | take_arg -s, is_empty, current | Some(\"12\");true;Some(1);
# long_flag_taken_before_word
--speed 12 | / | take_flag --speed, current, set_current, current, spelled | \
    true;Some(0);None;none;Word 12;
# word_left_by_flag_taken
--speed 12 | / | take_flag --speed, take_word, is_empty | true;(1, false, \"12\");true;
# word_after_marker_taken
-v -- -x | / | take_flag -v, take_word, is_empty | true;(2, true, \"-x\");true;
# value_then_word_after_marker_taken
-v 12 -- -x | / | take_arg -v, take_word, is_empty, take_word | \
    Some(\"12\");(3, true, \"-x\");true;missing;
# flags_taken_in_either_order
-s -v | / | take_flag -s, take_flag -s, len, take_flag -v, is_empty | true;false;1;true;true;
# flags_taken_the_other_way_round
-s -v | / | take_flag -v, take_flag -v, len, take_flag -s, is_empty | true;false;1;true;true;
# joined_flag_taken_three_times
-vvv | v/ | take_flag -v, take_flag -v, take_flag -v, take_flag -v, is_empty | \
    true;true;true;false;true;
# joined_value_taken
-abc | /a | take_arg -a, is_empty | Some(\"bc\");true;
# joined_flags_taken
-abc | abc/ | take_flag -a, take_flag -b, take_flag -c, is_empty | true;true;true;true;
# a refusal takes nothing, nor does a name that is not there
-s -v | / | take_arg -s, len, take_arg -x --y, take_adjacent -s, len | \
    no argument 0 NUM;2;None;None;2;
";

#[test]
fn items_are_taken(rt: HostRuntime) -> Result<(), Fail> {
    walk(rt.alloc(), TAKEN)
}

/// The names of commands.
const COMMANDS: &str = "
# command_then_word_taken
cmd pos | / | take_cmd cmd, current, take_word, is_empty | true;Some(0);(1, false, \"pos\");true;
# command_then_value_taken
cmd -s v | / | take_cmd cmd, take_arg -s, is_empty | true;Some(\"v\");true;
# a command that is not the first item
-s cmd | / | set_current 1, take_cmd cmd, current, items | false;None;0 -s,1 cmd,;
# keys are commands where no value is attached to a long one
-s | / | take_cmd -s | true;
-s=v | / | take_cmd -s=v | true;
--long | / | take_cmd --long | true;
--long=v | / | take_cmd --long=v | false;
# words behind the marker are none
-- cmd | / | take_cmd cmd, len | false;1;
";

#[test]
fn commands_are_taken(rt: HostRuntime) -> Result<(), Fail> {
    walk(rt.alloc(), COMMANDS)
}

/// Scope, places and path.
const SCOPED: &str = "
# the scope is narrowed, emptied and widened
a b c d | / | take_word, scope, set_scope 1 3, len, items, set_scope 2 2, is_empty, items, \
    set_scope 0 4, len, items | \
    (0, false, \"a\");0..4;true;2;1 b,2 c,;true;true;;true;3;1 b,2 c,3 d,;
# a place is removed in scope alone, and once
a b c | / | scope, set_scope 1 3, remove 1, current, set_current, remove 0, remove 1, remove 7, \
    current, present 0, present 1, present 2, present 3, items | \
    0..3;true;Some(1);None;Some(true);Some(false);Some(true);None;2 c,;
# a key is looked for before a place, of one kind and name, taken or not
-n --n -n=3 --n=3 -m n -n | / | remove 2, earlier_key 8, earlier_key 4, earlier_key 2, \
    earlier_key 0, earlier_key 6, earlier_key 7, earlier_key 9 | \
    Some(2);Some(1);Some(0);None;None;None;None;
# the places up to the first one that is present in another state too, where this one is removed
x y | / | adjacent_scope 0, adjacent_scope 1, adjacently_available_from 1 | Some(0..1);Some(0..0);1..2;
x | / | adjacent_scope 0, adjacently_available_from 1 | None;1..1;
# names are put on the path
x | / | depth, push_path build, depth, path, len | 1;2;[\"app\", \"build\"];1;
";

#[test]
fn scope_and_path_are_changed(rt: HostRuntime) -> Result<(), Fail> {
    walk(rt.alloc(), SCOPED)
}

/// What is told of items that no parser took.
const LEFT: &str = "
# leftovers_of_a_state
-v --v -v v -v | / | leftover, take_flag -v --v, leftover, take_flag -v --v, leftover, \
    earlier_key 0, earlier_key 1, earlier_key 3, earlier_key 4, earlier_key 5, remove 2, \
    leftover, remove 3, remove 4, leftover | \
    Some(Unconsumed(0));true;Some(Unconsumed(1));true;Some(OnlyOnce(0, 2));\
    None;None;None;Some(2);None;Some(Unconsumed(3));None;
";

#[test]
fn leftovers_are_told(rt: HostRuntime) -> Result<(), Fail> {
    walk(rt.alloc(), LEFT)
}
