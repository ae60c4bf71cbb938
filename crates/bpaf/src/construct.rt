//! The macro that joins parsers into a product or a choice.

/// Combines parsers into one: a product of its fields, whose values make a tuple or a value by
/// name, or a choice of them.
///
/// | call | answers a parser of |
/// |---|---|
/// | `construct!(a, b)` | the tuple `(a, b)` |
/// | `construct!(Name { a, b })` | fields of a struct or a variant, as `Command::Build { a, b }` |
/// | `construct!(Name(a, b))` | the same with numbered fields, as `Command::Run(a, b)` |
/// | `construct!(Name {})`, `construct!(Name())` | that value: it is [`pure`](crate::pure) of it |
/// | `construct!(Name {}; a, b)` | what a [`Constructor`](crate::Constructor) of this name makes |
/// | `construct!(a)` | what `a` parses: it is that parser itself |
/// | `construct!([a, b, c])` | what one of them parses: it is `a.or_else(b).or_else(c)` |
/// | `construct!([a])` | what `a` parses: it is that parser itself |
///
/// A name may be a path, such as `self::One(a, b)`; a leading `::` is dropped. A trailing comma may
/// stand. One call takes up to some forty fields, where the compiler's own limit lies; a product
/// may itself be a field.
///
/// A field is one of these, and they are evaluated in the order in which they are written:
///
/// | field | is |
/// |---|---|
/// | `name` | a variable that holds a parser |
/// | `name()` | what the function `name` answers |
/// | `name(expression)` | the expression's value; `?` may stand in it |
///
/// ```text
/// let num = short(alloc, 'n')?.long("num")?.argument::<u64>("NUM");
/// let options = construct!(Options {
///     verbose(short(alloc, 'v')?.long("verbose")?.switch()),
///     num,
/// });
/// ```
///
/// `construct!(a(expression))` alone is a value by the name `a`, since a constructor is read before
/// a field; with a trailing comma it is one field.
///
/// bpaf's macro makes a closure over the parsers, and evaluates them in it. This one makes a
/// product, [`ParseCon`](crate::ParseCon) over nested [`Both`](crate::Both) and
/// [`Last`](crate::Last), of more than four fields [`Four`](crate::Four) at a time, and a closure
/// for the constructor alone, so what the whole parses follows from what its fields do. A tuple of
/// at most four fields has a constructor with a name, so a function can answer its parser
/// ([`ParseTuple2`](crate::ParseTuple2)). The two have the same forms.
#[macro_export]
macro_rules! construct {
    // construct!(Name {}) and construct!(Name())
    ($(::)? $first:ident $(:: $more:ident)* {}) => { $crate::pure($first $(:: $more)* {}) };
    ($(::)? $first:ident $(:: $more:ident)* ()) => { $crate::pure($first $(:: $more)* ()) };

    // construct!(Name {}; a, b)
    ($(::)? $first:ident $(:: $more:ident)* {} ; $($fields:tt)+) => {
        $crate::construct!(@fields [by [$first $(:: $more)*]] [] $($fields)+)
    };
    // construct!(Name { a, b })
    ($(::)? $first:ident $(:: $more:ident)* { $($fields:tt)* }) => {
        $crate::construct!(@fields [named [$first $(:: $more)*]] [] $($fields)*)
    };
    // construct!(Name(a, b))
    ($(::)? $first:ident $(:: $more:ident)* ( $($fields:tt)* )) => {
        $crate::construct!(@fields [numbered [$first $(:: $more)*]] [] $($fields)*)
    };

    // construct!([a, b])
    ([ $($fields:tt)+ ]) => {
        $crate::construct!(@fields [choice] [] $($fields)+)
    };

    // a field from a function, from an expression, and from a variable
    (@fields $kind:tt [$($done:ident)*] $field:ident () $(, $($rest:tt)*)?) => {{
        let $field = $field();
        $crate::construct!(@fields $kind [$($done)* $field] $($($rest)*)?)
    }};
    (@fields $kind:tt [$($done:ident)*] $field:ident ($made:expr) $(, $($rest:tt)*)?) => {{
        let $field = $made;
        $crate::construct!(@fields $kind [$($done)* $field] $($($rest)*)?)
    }};
    (@fields $kind:tt [$($done:ident)*] $field:ident $(, $($rest:tt)*)?) => {
        $crate::construct!(@fields $kind [$($done)* $field] $($($rest)*)?)
    };

    // a choice
    (@fields [choice] [$first:ident $($rest:ident)*]) => {
        $crate::construct!(@choice [$first] $($rest)*)
    };
    // one field by itself
    (@fields [tuple] [$only:ident]) => { $only };
    // two to four fields, whose tuple has a constructor with a name
    (@fields [tuple] [$a:ident $b:ident]) => {
        $crate::ParseCon::by($crate::construct!(@product $a $b), $crate::Tuple2 {})
    };
    (@fields [tuple] [$a:ident $b:ident $c:ident]) => {
        $crate::ParseCon::by($crate::construct!(@product $a $b $c), $crate::Tuple3 {})
    };
    (@fields [tuple] [$a:ident $b:ident $c:ident $d:ident]) => {
        $crate::ParseCon::by($crate::construct!(@product $a $b $c $d), $crate::Tuple4 {})
    };
    // a product by a constructor
    (@fields [by [$($name:tt)+]] [$($field:ident)+]) => {
        $crate::ParseCon::by($crate::construct!(@product $($field)+), $($name)+ {})
    };
    // a product
    (@fields $kind:tt [$($field:ident)+]) => {
        $crate::ParseCon::new(
            $crate::construct!(@product $($field)+),
            |$crate::construct!(@pattern $($field)+)| $crate::construct!(@make $kind $($field)+),
        )
    };

    (@choice [$($made:tt)*]) => { $($made)* };
    (@choice [$($made:tt)*] $next:ident $($rest:ident)*) => {
        $crate::construct!(@choice [$crate::Parser::or_else($($made)*, $next)] $($rest)*)
    };

    (@product $last:ident) => { $crate::Last { last: $last } };
    (@product $a:ident $b:ident $c:ident $d:ident $($rest:ident)+) => {
        $crate::Four {
            fields: $crate::Both {
                first: $a,
                rest: $crate::Both {
                    first: $b,
                    rest: $crate::Both {
                        first: $c,
                        rest: $crate::Both {
                            first: $d,
                            rest: $crate::construct!(@product $($rest)+),
                        },
                    },
                },
            },
        }
    };
    (@product $first:ident $($rest:ident)+) => {
        $crate::Both { first: $first, rest: $crate::construct!(@product $($rest)+) }
    };
    (@pattern $last:ident) => { $last };
    (@pattern $a:ident $b:ident $c:ident $d:ident $($rest:ident)+) => {
        ($a, ($b, ($c, ($d, $crate::construct!(@pattern $($rest)+)))))
    };
    (@pattern $first:ident $($rest:ident)+) => { ($first, $crate::construct!(@pattern $($rest)+)) };

    (@make [named [$($name:tt)+]] $($field:ident)+) => { $($name)+ { $($field),+ } };
    (@make [numbered [$($name:tt)+]] $($field:ident)+) => { $($name)+ ( $($field),+ ) };
    (@make [tuple] $($field:ident)+) => { ( $($field),+ ) };

    // construct!(a, b)
    ($first:ident $($rest:tt)*) => {
        $crate::construct!(@fields [tuple] [] $first $($rest)*)
    };
}
