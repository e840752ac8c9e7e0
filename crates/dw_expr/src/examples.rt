//! Worked examples: calls that do nothing, whose contracts say what expressions over a row of two sources print, why
//! they are refused, and their kinds. specs/Examples.antt has the sources and the row.
ghost use Rattle.std.specs.Prelude.{◌≡◌, true, false, [], ◌∷◌, codes, Ok};
ghost use Rattle.dw_value.specs.declared.kinds.Op.TheVariants.{Add, Subtract, Multiply, Divide, Remainder};
ghost use Rattle.dw_value.specs.declared.kinds.Comparison.TheVariants.{Equal, Less};
ghost use Rattle.dw_value.specs.declared.kinds.Kind.TheVariants.{Small, Int, Big, Decimal, Char, Varchar, Date, Bool as Boolean};
ghost use Rattle.dw_expr.specs.declared.trees.Aggregate.TheVariants.{Count, CountDistinct, Sum, Min, Max};
ghost use Rattle.dw_expr.specs.declared.trees.Literal.TheVariants.{Date as Day, Truth};
ghost use Rattle.dw_expr.specs.Tree.{literal, negative, arithmetic, joined, compared, both, either, opposite, is_null, between, in_list, like, choice, choice_else, cast, coalesce, count_rows, aggregate, none, more, no_branch, branch};
ghost use Rattle.dw_expr.specs.Examples.{whole, part, text, unknown, name, of_source, by_zero, fails, past_integer, null_text, told, kind_told};

/// What numbers come to, and how they are printed.
pub fn examples_of_arithmetic()
    // 2147483647 + 1; 2147483648 + 1; 9223372036854775807 + 1; 9223372036854775808 + 1; 1.50; 007;
    // date '2024-02-29';
    ensures literals { (told (arithmetic Add (whole 2147483647) (whole 1)) ≡ codes "5 range")
        × (told (arithmetic Add (whole 2147483648) (whole 1)) ≡ codes "2147483649")
        × (told (arithmetic Add (whole 9223372036854775807) (whole 1)) ≡ codes "5 range")
        × (told (arithmetic Add (whole 9223372036854775808) (whole 1)) ≡ codes "9223372036854775809")
        × (told (part 150 2) ≡ codes "1.50")
        × (told (whole 7) ≡ codes "7")
        × (told (literal (Day (codes "2024-02-29"))) ≡ codes "2024-02-29") }
    // s + 1; s + s; i / -1; i % -1; 7 / 0; 7 % 0; -7 / 2; -7 % 2; 7 % -2; n / 0; -i; -2147483648; -null;
    ensures whole_numbers { (told (arithmetic Add (name (codes "s")) (whole 1)) ≡ codes "32768")
        × (told (arithmetic Add (name (codes "s")) (name (codes "s"))) ≡ codes "5 range")
        × (told (arithmetic Divide (name (codes "i")) (negative (whole 1))) ≡ codes "5 range")
        × (told (arithmetic Remainder (name (codes "i")) (negative (whole 1))) ≡ codes "0")
        × (told (arithmetic Divide (whole 7) (whole 0)) ≡ codes "6 zero")
        × (told (arithmetic Remainder (whole 7) (whole 0)) ≡ codes "6 zero")
        × (told (arithmetic Divide (negative (whole 7)) (whole 2)) ≡ codes "-3")
        × (told (arithmetic Remainder (negative (whole 7)) (whole 2)) ≡ codes "-1")
        × (told (arithmetic Remainder (whole 7) (negative (whole 2))) ≡ codes "1")
        × (told (arithmetic Divide (name (codes "n")) (whole 0)) ≡ null_text)
        × (told (negative (name (codes "i"))) ≡ codes "5 range")
        × (told (negative (whole 2147483648)) ≡ codes "-2147483648")
        × (told (negative unknown) ≡ null_text) }
    // 1.5 * 1.25; 1.5 + 1.25; 1 - 0.05; 1.5 / 2; 1.5 % 2; 99999999999999999999999999999999999999 + 1;
    // 99999999999999999999999999999999999999 + 0.0; 99999999999999999999999999999999999999 * 1;
    // 10000000000000000000 * 10000000000000000000; 1.00000000000000000000 * 1.00000000000000000000;
    // null * 1.00000000000000000000; null + 1.5; 9223372036854775808 / 2; d + s; d - null;
    ensures decimals { (told (arithmetic Multiply (part 15 1) (part 125 2)) ≡ codes "1.875")
        × (told (arithmetic Add (part 15 1) (part 125 2)) ≡ codes "2.75")
        × (told (arithmetic Subtract (whole 1) (part 5 2)) ≡ codes "0.95")
        × (told (arithmetic Divide (part 15 1) (whole 2)) ≡ codes "4 clash")
        × (told (arithmetic Remainder (part 15 1) (whole 2)) ≡ codes "4 clash")
        × (told (arithmetic Add (whole 99999999999999999999999999999999999999) (whole 1)) ≡ codes "5 range")
        × (told (arithmetic Add (whole 99999999999999999999999999999999999999) (part 0 1)) ≡ codes "5 range")
        × (told (arithmetic Multiply (whole 99999999999999999999999999999999999999) (whole 1))
        ≡ codes "99999999999999999999999999999999999999")
        × (told (arithmetic Multiply (whole 10000000000000000000) (whole 10000000000000000000)) ≡ codes "5 range")
        × (told (arithmetic Multiply (part 100000000000000000000 20) (part 100000000000000000000 20))
        ≡ codes "4 clash")
        × (told (arithmetic Multiply unknown (part 100000000000000000000 20)) ≡ codes "4 clash")
        × (told (arithmetic Add unknown (part 15 1)) ≡ null_text)
        × (told (arithmetic Divide (whole 9223372036854775808) (whole 2)) ≡ codes "4 clash")
        × (told (arithmetic Add (name (codes "d")) (name (codes "s"))) ≡ codes "32768.50")
        × (told (arithmetic Subtract (name (codes "d")) unknown) ≡ null_text) }
    // 0.05; -0.05; d; dt::varchar; true::varchar; bo; i; 0 - 0.00;
    ensures printed { (told (part 5 2) ≡ codes "0.05")
        × (told (negative (part 5 2)) ≡ codes "-0.05")
        × (told (name (codes "d")) ≡ codes "1.50")
        × (told (cast (name (codes "dt")) (Varchar 256)) ≡ codes "2024-02-29")
        × (told (cast (literal (Truth true)) (Varchar 256)) ≡ codes "t")
        × (told (name (codes "bo")) ≡ codes "t")
        × (told (name (codes "i")) ≡ codes "-2147483648")
        × (told (arithmetic Subtract (whole 0) (part 0 2)) ≡ codes "0.00") }
{}

/// Comparisons, IN and BETWEEN: what is unknown beside NULL, and texts that are read as dates.
pub fn examples_of_comparisons()
    // 1 = 'x'; dt = '2024-02-29'; '2024-02-29' = dt; dt = 'x'; dt = v; null = dt; null = null; 1 = 1.00; d = 1.5;
    // 1.50 < 1.6; date '2023-02-29'; 'a' < 'B'; false < true; c = 'ab   ';
    ensures comparisons { (told (compared Equal (whole 1) (text (codes "x"))) ≡ codes "4 clash")
        × (told (compared Equal (name (codes "dt")) (text (codes "2024-02-29"))) ≡ codes "t")
        × (told (compared Equal (text (codes "2024-02-29")) (name (codes "dt"))) ≡ codes "t")
        × (told (compared Equal (name (codes "dt")) (text (codes "x"))) ≡ codes "4 clash")
        × (told (compared Equal (name (codes "dt")) (name (codes "v"))) ≡ codes "4 clash")
        × (told (compared Equal unknown (name (codes "dt"))) ≡ null_text)
        × (told (compared Equal unknown unknown) ≡ null_text)
        × (told (compared Equal (whole 1) (part 100 2)) ≡ codes "t")
        × (told (compared Equal (name (codes "d")) (part 15 1)) ≡ codes "t")
        × (told (compared Less (part 150 2) (part 16 1)) ≡ codes "t")
        × (told (literal (Day (codes "2023-02-29"))) ≡ codes "4 clash")
        × (told (compared Less (text (codes "a")) (text (codes "B"))) ≡ codes "f")
        × (told (compared Less (literal (Truth false)) (literal (Truth true))) ≡ codes "t")
        × (told (compared Equal (name (codes "c")) (text (codes "ab   "))) ≡ codes "f") }
    // 1 in (2, null); 1 in (1, null); 1 not in (2, null); 1 not in (1, null); 1 in (1, 1 / 0); 1 in ('a');
    // dt in ('2024-02-29', null); '2024-02-29' in (dt, 'x'); null in (1, 'a'); 1 in (2, 3);
    ensures in_lists { (told (in_list false (whole 1) (more (whole 2) (more unknown none))) ≡ null_text)
        × (told (in_list false (whole 1) (more (whole 1) (more unknown none))) ≡ codes "t")
        × (told (in_list true (whole 1) (more (whole 2) (more unknown none))) ≡ null_text)
        × (told (in_list true (whole 1) (more (whole 1) (more unknown none))) ≡ codes "f")
        × (told (in_list false (whole 1) (more (whole 1) (more by_zero none))) ≡ codes "6 zero")
        × (told (in_list false (whole 1) (more (text (codes "a")) none)) ≡ codes "4 clash")
        × (told (in_list false (name (codes "dt")) (more (text (codes "2024-02-29")) (more unknown none)))
        ≡ codes "t")
        × (told (in_list false (text (codes "2024-02-29")) (more (name (codes "dt")) (more (text (codes "x")) none)))
        ≡ codes "t")
        × (told (in_list false unknown (more (whole 1) (more (text (codes "a")) none))) ≡ null_text)
        × (told (in_list false (whole 1) (more (whole 2) (more (whole 3) none))) ≡ codes "f") }
    // 2 between 1 and 3; 2 between 3 and null; 2 not between 3 and null; 2 between 1 and null;
    // dt between '2024-01-01' and '2024-12-31'; '2024-02-29' between dt and 'x'; 'x' between dt and 'y';
    ensures betweens { (told (between false (whole 2) (whole 1) (whole 3)) ≡ codes "t")
        × (told (between false (whole 2) (whole 3) unknown) ≡ codes "f")
        × (told (between true (whole 2) (whole 3) unknown) ≡ codes "t")
        × (told (between false (whole 2) (whole 1) unknown) ≡ null_text)
        × (told (between false (name (codes "dt")) (text (codes "2024-01-01")) (text (codes "2024-12-31")))
        ≡ codes "t")
        × (told (between false (text (codes "2024-02-29")) (name (codes "dt")) (text (codes "x"))) ≡ codes "t")
        × (told (between false (text (codes "x")) (name (codes "dt")) (text (codes "y"))) ≡ codes "4 clash") }
{}

/// AND, OR, NOT and IS NULL, and which of several faults is told.
pub fn examples_of_truths()
    // null and false; null and true; null or true; null or false; not null; not bo; 1 and true;
    // false and 1 / 0 = 1; true or 1 / 0 = 1; n is null; 1 is not null; 1 / 0 is null;
    ensures truths { (told (both unknown (literal (Truth false))) ≡ codes "f")
        × (told (both unknown (literal (Truth true))) ≡ null_text)
        × (told (either unknown (literal (Truth true))) ≡ codes "t")
        × (told (either unknown (literal (Truth false))) ≡ null_text)
        × (told (opposite unknown) ≡ null_text)
        × (told (opposite (name (codes "bo"))) ≡ codes "f")
        × (told (both (whole 1) (literal (Truth true))) ≡ codes "4 clash")
        × (told (both (literal (Truth false)) fails) ≡ codes "6 zero")
        × (told (either (literal (Truth true)) fails) ≡ codes "6 zero")
        × (told (is_null false (name (codes "n"))) ≡ codes "t")
        × (told (is_null true (whole 1)) ≡ codes "t")
        × (told (is_null false by_zero) ≡ codes "6 zero") }
    // 1 / 0 + (2147483647 + 1); 2147483647 + 1 = 1 / 0; 1 / 0 in (1, 2147483647 + 1);
    ensures faults { (told (arithmetic Add by_zero past_integer) ≡ codes "5 range")
        × (told (compared Equal past_integer by_zero) ≡ codes "5 range")
        × (told (in_list false by_zero (more (whole 1) (more past_integer none))) ≡ codes "5 range") }
{}

/// CASE and COALESCE: what is evaluated, and the kind that branches come to.
pub fn examples_of_conditionals()
    // case when true then 1 when 1 / 0 = 1 then 2 end; case when false then 1 end;
    // case when null then 1 else 2 end; case when 1 / 0 = 1 then 1 end; case when true then 1 else 1.50 end;
    // case when true then 1 else 'x' end; case when 1 then 1 end;
    // case when true then 99999999999999999999999999999999999999 else 0.1 end;
    // case when false then 99999999999999999999999999999999999999 else 0.1 end;
    // case when true then null else dt end; case when true then s else b end + 1;
    ensures cases { (told (choice (branch (literal (Truth true)) (whole 1) (branch fails (whole 2) no_branch)))
        ≡ codes "1")
        × (told (choice (branch (literal (Truth false)) (whole 1) no_branch)) ≡ null_text)
        × (told (choice_else (branch unknown (whole 1) no_branch) (whole 2)) ≡ codes "2")
        × (told (choice (branch fails (whole 1) no_branch)) ≡ codes "6 zero")
        × (told (choice_else (branch (literal (Truth true)) (whole 1) no_branch) (part 150 2)) ≡ codes "1.00")
        × (told (choice_else (branch (literal (Truth true)) (whole 1) no_branch) (text (codes "x")))
        ≡ codes "4 clash")
        × (told (choice (branch (whole 1) (whole 1) no_branch)) ≡ codes "4 clash")
        × (told (choice_else
        (branch (literal (Truth true)) (whole 99999999999999999999999999999999999999) no_branch) (part 1 1))
        ≡ codes "5 range")
        × (told (choice_else
        (branch (literal (Truth false)) (whole 99999999999999999999999999999999999999) no_branch) (part 1 1))
        ≡ codes "0.1")
        × (told (choice_else (branch (literal (Truth true)) unknown no_branch) (name (codes "dt"))) ≡ null_text)
        × (told (arithmetic Add
        (choice_else (branch (literal (Truth true)) (name (codes "s")) no_branch) (name (codes "b"))) (whole 1))
        ≡ codes "32768") }
    // coalesce(null, 1, 1 / 0); coalesce(n, 1 / 0); coalesce(null, null); coalesce(1, 2.50); coalesce(null, dt);
    // coalesce(dt, '2024-01-01'); coalesce(null, null) = 1; coalesce(null, null) = 'a';
    ensures coalesces { (told (coalesce (more unknown (more (whole 1) (more by_zero none)))) ≡ codes "1")
        × (told (coalesce (more (name (codes "n")) (more by_zero none))) ≡ codes "6 zero")
        × (told (coalesce (more unknown (more unknown none))) ≡ null_text)
        × (told (coalesce (more (whole 1) (more (part 250 2) none))) ≡ codes "1.00")
        × (told (coalesce (more unknown (more (name (codes "dt")) none))) ≡ codes "2024-02-29")
        × (told (coalesce (more (name (codes "dt")) (more (text (codes "2024-01-01")) none))) ≡ codes "4 clash")
        × (told (compared Equal (coalesce (more unknown (more unknown none))) (whole 1)) ≡ null_text)
        × (told (compared Equal (coalesce (more unknown (more unknown none))) (text (codes "a"))) ≡ codes "4 clash") }
{}

/// Texts, one after the other and beside patterns.
pub fn examples_of_texts()
    // 'a' || 'b'; 'a' || null; 1 || 'a'; c || '.'; 'it''s';
    ensures texts { (told (joined (text (codes "a")) (text (codes "b"))) ≡ codes "ab")
        × (told (joined (text (codes "a")) unknown) ≡ null_text)
        × (told (joined (whole 1) (text (codes "a"))) ≡ codes "4 clash")
        × (told (joined (name (codes "c")) (text (codes "."))) ≡ codes "ab.")
        × (told (text (codes "it's")) ≡ codes "it's") }
    // 'abc' like 'a%'; 'abc' like '_b_'; 'a' like 'a_'; 'é' like '_'; 'a\b' like 'a\b'; '100%' like '100\%';
    // '' like '%'; '' like '_'; null like 'a'; 1 like '1'; 'ABC' like 'abc'; 'abc' not like '%c';
    // 'aXbXc' like '%X%X%'; 'aXbc' like '%X%X%';
    ensures likes { (told (like false (text (codes "abc")) (text (codes "a%"))) ≡ codes "t")
        × (told (like false (text (codes "abc")) (text (codes "_b_"))) ≡ codes "t")
        × (told (like false (text (codes "a")) (text (codes "a_"))) ≡ codes "f")
        × (told (like false (text (195 ∷ 169 ∷ [])) (text (codes "_"))) ≡ codes "t")
        × (told (like false (text (97 ∷ 92 ∷ 98 ∷ [])) (text (97 ∷ 92 ∷ 98 ∷ []))) ≡ codes "t")
        × (told (like false (text (codes "100%")) (text (49 ∷ 48 ∷ 48 ∷ 92 ∷ 37 ∷ []))) ≡ codes "f")
        × (told (like false (text (codes "")) (text (codes "%"))) ≡ codes "t")
        × (told (like false (text (codes "")) (text (codes "_"))) ≡ codes "f")
        × (told (like false unknown (text (codes "a"))) ≡ null_text)
        × (told (like false (whole 1) (text (codes "1"))) ≡ codes "4 clash")
        × (told (like false (text (codes "ABC")) (text (codes "abc"))) ≡ codes "f")
        × (told (like true (text (codes "abc")) (text (codes "%c"))) ≡ codes "f")
        × (told (like false (text (codes "aXbXc")) (text (codes "%X%X%"))) ≡ codes "t")
        × (told (like false (text (codes "aXbc")) (text (codes "%X%X%"))) ≡ codes "f") }
{}

/// Casts of numbers, dates and truths, and of texts.
pub fn examples_of_casts()
    // cast(1.005 as decimal(5,2)); cast(-1.005 as decimal(5,2)); cast(2.5 as int); cast(-2.5 as int);
    // cast(2.4 as int); 40000::smallint; -32768::smallint; cast(-32768 as smallint);
    // cast(999.999 as decimal(5,2)); 1::decimal(3,2); true::int; 1::boolean; dt::int; 1::date; 1.50::varchar;
    // 123::varchar(2);
    ensures casts_of_numbers { (told (cast (part 1005 3) (Decimal 5 2)) ≡ codes "1.01")
        × (told (cast (negative (part 1005 3)) (Decimal 5 2)) ≡ codes "-1.01")
        × (told (cast (part 25 1) Int) ≡ codes "3")
        × (told (cast (negative (part 25 1)) Int) ≡ codes "-3")
        × (told (cast (part 24 1) Int) ≡ codes "2")
        × (told (cast (whole 40000) Small) ≡ codes "5 range")
        × (told (negative (cast (whole 32768) Small)) ≡ codes "5 range")
        × (told (cast (negative (whole 32768)) Small) ≡ codes "-32768")
        × (told (cast (part 999999 3) (Decimal 5 2)) ≡ codes "5 range")
        × (told (cast (whole 1) (Decimal 3 2)) ≡ codes "1.00")
        × (told (cast (literal (Truth true)) Int) ≡ codes "4 clash")
        × (told (cast (whole 1) Boolean) ≡ codes "4 clash")
        × (told (cast (name (codes "dt")) Int) ≡ codes "4 clash")
        × (told (cast (whole 1) Date) ≡ codes "4 clash")
        × (told (cast (part 150 2) (Varchar 256)) ≡ codes "1.50")
        × (told (cast (whole 123) (Varchar 2)) ≡ codes "5 range") }
    // 'ab  '::char(2); 'abc'::char(2); 'ab '::varchar(2); 'é'::varchar(1); 'é'::varchar(2); '2024-02-30'::date;
    // '2024-2-29'::date; '2024-02-29'::date; '0000-01-01'::date; 't'::boolean; ' +12.345 '::decimal(5,2);
    // '1.5'::int; '.5'::decimal(3,1); '1.'::decimal(3,1); ' 12'::int; '-0.004'::decimal(5,2); ''::int;
    // '- 1'::int; '1e1'::int; null::date;
    ensures casts_of_texts { (told (cast (text (codes "ab  ")) (Char 2)) ≡ codes "ab")
        × (told (cast (text (codes "abc")) (Char 2)) ≡ codes "5 range")
        × (told (cast (text (codes "ab ")) (Varchar 2)) ≡ codes "5 range")
        × (told (cast (text (195 ∷ 169 ∷ [])) (Varchar 1)) ≡ codes "5 range")
        × (told (cast (text (195 ∷ 169 ∷ [])) (Varchar 2)) ≡ (195 ∷ 169 ∷ []))
        × (told (cast (text (codes "2024-02-30")) Date) ≡ codes "5 range")
        × (told (cast (text (codes "2024-2-29")) Date) ≡ codes "5 range")
        × (told (cast (text (codes "2024-02-29")) Date) ≡ codes "2024-02-29")
        × (told (cast (text (codes "0000-01-01")) Date) ≡ codes "5 range")
        × (told (cast (text (codes "t")) Boolean) ≡ codes "4 clash")
        × (told (cast (text (codes " +12.345 ")) (Decimal 5 2)) ≡ codes "12.35")
        × (told (cast (text (codes "1.5")) Int) ≡ codes "5 range")
        × (told (cast (text (codes ".5")) (Decimal 3 1)) ≡ codes "5 range")
        × (told (cast (text (codes "1.")) (Decimal 3 1)) ≡ codes "5 range")
        × (told (cast (text (codes " 12")) Int) ≡ codes "12")
        × (told (cast (text (codes "-0.004")) (Decimal 5 2)) ≡ codes "0.00")
        × (told (cast (text (codes "")) Int) ≡ codes "5 range")
        × (told (cast (text (codes "- 1")) Int) ≡ codes "5 range")
        × (told (cast (text (codes "1e1")) Int) ≡ codes "5 range")
        × (told (cast unknown Date) ≡ null_text) }
{}

/// Which columns names mean, and where aggregates are refused.
pub fn examples_of_names()
    // zz; k; x.k; u.k; q.k; w; t.k; zz + yy = 'a'; 1 = 'x' or zz; 1 between yy and zz;
    // case when bo then yy else zz end;
    ensures names { (told (name (codes "zz")) ≡ codes "2 unknown zz")
        × (told (name (codes "k")) ≡ codes "2 unknown k")
        × (told (of_source (codes "x") (codes "k")) ≡ codes "7")
        × (told (of_source (codes "u") (codes "k")) ≡ codes "8")
        × (told (of_source (codes "q") (codes "k")) ≡ codes "2 unknown k")
        × (told (name (codes "w")) ≡ codes "xyz")
        × (told (of_source (codes "t") (codes "k")) ≡ codes "2 unknown k")
        × (told (compared Equal (arithmetic Add (name (codes "zz")) (name (codes "yy"))) (text (codes "a")))
        ≡ codes "2 unknown zz")
        × (told (either (compared Equal (whole 1) (text (codes "x"))) (name (codes "zz"))) ≡ codes "2 unknown zz")
        × (told (between false (whole 1) (name (codes "yy")) (name (codes "zz"))) ≡ codes "2 unknown yy")
        × (told (choice_else (branch (name (codes "bo")) (name (codes "yy")) no_branch) (name (codes "zz")))
        ≡ codes "2 unknown yy") }
    // sum(sum(s)); count(count(*)); min(bo); sum(v); sum(dt); max(zz);
    ensures aggregates { (told (aggregate Sum (aggregate Sum (name (codes "s")))) ≡ codes "4 clash")
        × (told (aggregate Count count_rows) ≡ codes "4 clash")
        × (told (aggregate Min (name (codes "bo"))) ≡ codes "4 clash")
        × (told (aggregate Sum (name (codes "v"))) ≡ codes "4 clash")
        × (told (aggregate Sum (name (codes "dt"))) ≡ codes "4 clash")
        × (told (aggregate Max (name (codes "zz"))) ≡ codes "2 unknown zz") }
{}

/// Kinds of expressions.
pub fn examples_of_kinds()
    // 1; 2147483648; 9223372036854775808; 1.0; null; -s; s + s; s * b; d + 1; d * d; c || v; count(*);
    // count(distinct bo); sum(s); sum(b); sum(d); sum(null); min(d); max(c); coalesce(d); coalesce(c);
    // coalesce(s, i); case when bo then s else d end; case when bo then null end; s is null; cast(1 as char(3));
    ensures { (kind_told (whole 1) ≡ Ok Int)
        × (kind_told (whole 2147483648) ≡ Ok Big)
        × (kind_told (whole 9223372036854775808) ≡ Ok (Decimal 38 0))
        × (kind_told (part 10 1) ≡ Ok (Decimal 38 1))
        × (kind_told unknown ≡ Ok Int)
        × (kind_told (negative (name (codes "s"))) ≡ Ok Int)
        × (kind_told (arithmetic Add (name (codes "s")) (name (codes "s"))) ≡ Ok Small)
        × (kind_told (arithmetic Multiply (name (codes "s")) (name (codes "b"))) ≡ Ok Big)
        × (kind_told (arithmetic Add (name (codes "d")) (whole 1)) ≡ Ok (Decimal 38 2))
        × (kind_told (arithmetic Multiply (name (codes "d")) (name (codes "d"))) ≡ Ok (Decimal 38 4))
        × (kind_told (joined (name (codes "c")) (name (codes "v"))) ≡ Ok (Varchar 65535))
        × (kind_told count_rows ≡ Ok Big)
        × (kind_told (aggregate CountDistinct (name (codes "bo"))) ≡ Ok Big)
        × (kind_told (aggregate Sum (name (codes "s"))) ≡ Ok Big)
        × (kind_told (aggregate Sum (name (codes "b"))) ≡ Ok (Decimal 38 0))
        × (kind_told (aggregate Sum (name (codes "d"))) ≡ Ok (Decimal 38 2))
        × (kind_told (aggregate Sum unknown) ≡ Ok Big)
        × (kind_told (aggregate Min (name (codes "d"))) ≡ Ok (Decimal 5 2))
        × (kind_told (aggregate Max (name (codes "c"))) ≡ Ok (Char 5))
        × (kind_told (coalesce (more (name (codes "d")) none)) ≡ Ok (Decimal 38 2))
        × (kind_told (coalesce (more (name (codes "c")) none)) ≡ Ok (Varchar 65535))
        × (kind_told (coalesce (more (name (codes "s")) (more (name (codes "i")) none))) ≡ Ok Int)
        × (kind_told (choice_else (branch (name (codes "bo")) (name (codes "s")) no_branch) (name (codes "d")))
        ≡ Ok (Decimal 38 2))
        × (kind_told (choice (branch (name (codes "bo")) unknown no_branch)) ≡ Ok Int)
        × (kind_told (is_null false (name (codes "s"))) ≡ Ok Boolean)
        × (kind_told (cast (whole 1) (Char 3)) ≡ Ok (Char 3)) }
{}
