//! What expressions over a row are bound to and come to, and why they are refused.
//!
//! An expression stands in postfix form, operands before what is made of them: `s 1 +` is `s + 1`, `s 1 2 in/2` is
//! `s in (1, 2)`, and `bo 1 case/1` is `case when bo then 1 end`. A text stands after `'`, a date after `@`, and a `~` in
//! them is a space.
use crate::{Sight, bind_expression};
use dw_expr::{
    Aggregate, Arms, ArmsNode, BindFault, BoundExpr, ExecFault, Expr, Exprs, ExprsNode, Literal,
    NamedColumn, NamedSource, Node, Wanted, evaluate,
};
use dw_value::{
    Comparison, Fault, Field, Kind, List, Op, Row, Text, Value, read_date, read_number, show,
};
use std::alloc::{AllocError, Global};
use std::test::Fail;

/// The columns of the table under the alias x and of the one under u: name, kind and value in the row.
const COLUMNS: &str = "x s smallint 32767
x i int -2147483648
x b bigint 5
x d decimal(5,2) 1.50
x c char(5) ab
x v varchar(20) abc
x dt date 2024-02-29
x bo boolean t
x n int null
x k int 7
u k int 8
u w varchar(3) xyz";

/// In each line an expression, its kind and its value; or the number of the refusal after `!`, where it isn't bound. The
/// values were computed by a program of their own, with exact fractions.
const EXPRESSIONS: &str = "1 'x = | !4
dt '2024-02-29 = | boolean | t
'2024-02-29 dt = | boolean | t
dt 'x = | !4
dt v = | !4
null dt = | boolean | NULL
null null = | boolean | NULL
1 1.00 = | boolean | t
d 1.5 = | boolean | t
1.50 1.6 < | boolean | t
@2023-02-29 | !4
'a 'B < | boolean | f
false true < | boolean | t
c 'ab~~~ = | boolean | f
2147483647 1 + | int | !5
2147483648 1 + | bigint | 2147483649
9223372036854775807 1 + | bigint | !5
9223372036854775808 1 + | decimal(38,0) | 9223372036854775809
1.50 | decimal(38,2) | 1.50
7 | int | 7
@2024-02-29 | date | 2024-02-29
s 1 + | int | 32768
s s + | smallint | !5
i 1 minus / | int | !5
i 1 minus % | int | 0
7 0 / | int | !6
7 0 % | int | !6
7 minus 2 / | int | -3
7 minus 2 % | int | -1
7 2 minus % | int | 1
n 0 / | int | NULL
i minus | int | !5
2147483648 minus | bigint | -2147483648
null minus | int | NULL
1.5 1.25 * | decimal(38,3) | 1.875
1.5 1.25 + | decimal(38,2) | 2.75
1 0.05 - | decimal(38,2) | 0.95
1.5 2 / | !4
1.5 2 % | !4
99999999999999999999999999999999999999 1 + | decimal(38,0) | !5
99999999999999999999999999999999999999 0.0 + | decimal(38,1) | !5
99999999999999999999999999999999999999 1 * | decimal(38,0) | 99999999999999999999999999999999999999
10000000000000000000 10000000000000000000 * | decimal(38,0) | !5
1.00000000000000000000 1.00000000000000000000 * | !4
null 1.00000000000000000000 * | !4
null 1.5 + | decimal(38,1) | NULL
9223372036854775808 2 / | !4
d s + | decimal(38,2) | 32768.50
d null - | decimal(38,2) | NULL
'a 'b || | varchar(65535) | ab
'a null || | varchar(65535) | NULL
1 'a || | !4
c '. || | varchar(65535) | ab.
'it's | varchar(65535) | it's
null false and | boolean | f
null true and | boolean | NULL
null true or | boolean | t
null false or | boolean | NULL
null not | boolean | NULL
bo not | boolean | f
1 true and | !4
false 1 0 / 1 = and | boolean | !6
true 1 0 / 1 = or | boolean | !6
n is_null | boolean | t
1 is_not_null | boolean | t
1 0 / is_null | boolean | !6
1 0 / 2147483647 1 + + | int | !5
2147483647 1 + 1 0 / = | boolean | !5
1 0 / 1 2147483647 1 + in/2 | boolean | !5
true 1 1 0 / 1 = 2 case/2 | int | 1
false 1 case/1 | int | NULL
null 1 2 case_else/1 | int | 2
1 0 / 1 = 1 case/1 | int | !6
true 1 1.50 case_else/1 | decimal(38,2) | 1.00
true 1 'x case_else/1 | !4
1 1 case/1 | !4
true 99999999999999999999999999999999999999 0.1 case_else/1 | decimal(38,1) | !5
false 99999999999999999999999999999999999999 0.1 case_else/1 | decimal(38,1) | 0.1
true null dt case_else/1 | date | NULL
true s b case_else/1 1 + | bigint | 32768
null 1 1 0 / coalesce/3 | int | 1
n 1 0 / coalesce/2 | int | !6
null null coalesce/2 | int | NULL
1 2.50 coalesce/2 | decimal(38,2) | 1.00
null dt coalesce/2 | date | 2024-02-29
dt '2024-01-01 coalesce/2 | !4
null null coalesce/2 1 = | boolean | NULL
null null coalesce/2 'a = | !4
1 2 null in/2 | boolean | NULL
1 1 null in/2 | boolean | t
1 2 null not_in/2 | boolean | NULL
1 1 null not_in/2 | boolean | f
1 1 1 0 / in/2 | boolean | !6
1 'a in/1 | !4
dt '2024-02-29 null in/2 | boolean | t";

/// More of them.
const MORE_EXPRESSIONS: &str = "'2024-02-29 dt 'x in/2 | boolean | t
null 1 'a in/2 | boolean | NULL
1 2 3 in/2 | boolean | f
2 1 3 between | boolean | t
2 3 null between | boolean | f
2 3 null not_between | boolean | t
2 1 null between | boolean | NULL
dt '2024-01-01 '2024-12-31 between | boolean | t
'2024-02-29 dt 'x between | boolean | t
'x dt 'y between | !4
'abc 'a% like | boolean | t
'abc '_b_ like | boolean | t
'a 'a_ like | boolean | f
'é '_ like | boolean | t
'a\\b 'a\\b like | boolean | t
'100% '100\\% like | boolean | f
' '% like | boolean | t
' '_ like | boolean | f
null 'a like | boolean | NULL
1 '1 like | !4
'ABC 'abc like | boolean | f
'abc '%c not_like | boolean | f
'aXbXc '%X%X% like | boolean | t
'aXbc '%X%X% like | boolean | f
1.005 ::decimal(5,2) | decimal(5,2) | 1.01
1.005 minus ::decimal(5,2) | decimal(5,2) | -1.01
2.5 ::int | int | 3
2.5 minus ::int | int | -3
2.4 ::int | int | 2
40000 ::smallint | smallint | !5
32768 ::smallint minus | int | !5
32768 minus ::smallint | smallint | -32768
999.999 ::decimal(5,2) | decimal(5,2) | !5
1 ::decimal(3,2) | decimal(3,2) | 1.00
true ::int | !4
1 ::boolean | !4
dt ::int | !4
1 ::date | !4
1.50 ::varchar(256) | varchar(256) | 1.50
123 ::varchar(2) | varchar(2) | !5
'ab~~ ::char(2) | char(2) | ab
'abc ::char(2) | char(2) | !5
'ab~ ::varchar(2) | varchar(2) | !5
'é ::varchar(1) | varchar(1) | !5
'é ::varchar(2) | varchar(2) | é
'2024-02-30 ::date | date | !5
'2024-2-29 ::date | date | !5
'2024-02-29 ::date | date | 2024-02-29
'0000-01-01 ::date | date | !5
't ::boolean | !4
'~+12.345~ ::decimal(5,2) | decimal(5,2) | 12.35
'1.5 ::int | int | !5
'.5 ::decimal(3,1) | decimal(3,1) | !5
'1. ::decimal(3,1) | decimal(3,1) | !5
'~12 ::int | int | 12
'-0.004 ::decimal(5,2) | decimal(5,2) | 0.00
' ::int | int | !5
'-~1 ::int | int | !5
'1e1 ::int | int | !5
null ::date | date | NULL
0.05 | decimal(38,2) | 0.05
0.05 minus | decimal(38,2) | -0.05
d | decimal(5,2) | 1.50
dt ::varchar(256) | varchar(256) | 2024-02-29
true ::varchar(256) | varchar(256) | t
bo | boolean | t
i | int | -2147483648
0 0.00 - | decimal(38,2) | 0.00
zz | !2 zz
k | !2 k
x.k | int | 7
u.k | int | 8
q.k | !2 k
w | varchar(3) | xyz
t.k | !2 k
zz yy + 'a = | !2 zz
1 'x = zz or | !2 zz
1 yy zz between | !2 yy
bo yy zz case_else/1 | !2 yy
s sum sum | !4
count(*) count | !4
bo min | !4
v sum | !4
dt sum | !4
zz max | !2 zz
1 | int | 1
2147483648 | bigint | 2147483648
9223372036854775808 | decimal(38,0) | 9223372036854775808
1.0 | decimal(38,1) | 1.0
null | int | NULL
s minus | int | -32767
s b * | bigint | 163835
d 1 + | decimal(38,2) | 2.50
d d * | decimal(38,4) | 2.2500
c v || | varchar(65535) | ababc";

/// More of them.
const FURTHER_EXPRESSIONS: &str = "count(*) | bigint | NULL
bo count_distinct | bigint | NULL
s sum | bigint | NULL
b sum | decimal(38,0) | NULL
d sum | decimal(38,2) | NULL
null sum | bigint | NULL
d min | decimal(5,2) | NULL
c max | char(5) | NULL
d coalesce/1 | decimal(38,2) | 1.50
c coalesce/1 | varchar(65535) | ab
s i coalesce/2 | int | 32767
bo s d case_else/1 | decimal(38,2) | 32767.00
bo null case/1 | int | NULL
s is_null | boolean | f
1 ::char(3) | char(3) | 1
null 1 + | int | NULL
null 'a || | varchar(65535) | NULL
null 1 case/1 | int | NULL
null 1.5 coalesce/2 | decimal(38,1) | 1.5
null 1 in/1 | boolean | NULL
0.1 0.2 + | decimal(38,1) | 0.3
1.00000000000000000000 1.000000000000000000 * | !4
true 99999999999999999999999999999999999999 0.5 case_else/1 | decimal(38,1) | !5
1 0 / 1 = 1 1 = or | boolean | !6
1 1 = 1 1 0 / case_else/1 | int | 1
'abc '%b% like | boolean | t
'😀x '_x like | boolean | t
' ' like | boolean | t
'a ' like | boolean | f
'~12.50 ::decimal(5,2) | decimal(5,2) | 12.50
'+7 ::int | int | 7
'12.505 ::decimal(5,2) | decimal(5,2) | 12.51
'12.50 ::int | int | !5
'1e3 ::int | int | !5
'.5 ::decimal(5,2) | decimal(5,2) | !5
'5. ::decimal(5,2) | decimal(5,2) | !5
'abcd ::char(3) | char(3) | !5
0 9223372036854775808 - ::bigint minus | bigint | !5
9223372036854775808 minus | decimal(38,0) | -9223372036854775808
32768 minus ::smallint | smallint | -32768
1 2 3 not_in/2 | boolean | t
1 null 1 in/2 | boolean | t
'2024-02-29 dt null in/2 | boolean | t
'2024-02-29 dt '2024-03-01 not_in/2 | boolean | f
dt '2024-02-28 not_in/1 | boolean | t
dt 'x in/1 | !4
null null dt in/2 | boolean | NULL
null 'x 'y not_in/2 | boolean | NULL
s i b between | boolean | f
s b i between | boolean | f
d 1.5 1.50 between | boolean | t
null 1 2 between | boolean | NULL
null 1 'x between | boolean | NULL
1 null 0 between | boolean | f
1 null 0 not_between | boolean | t
1 2 null between | boolean | f
'b 'a v between | boolean | f
'2024-02-29 dt '2024-02-29 between | boolean | t
'2024-03-01 dt 'a between | boolean | t
dt '2024-02-28 '2024-03-01 between | boolean | t
dt '2024-02-28 '2024-03-01 not_between | boolean | f
1 'a 2 between | !4
1 0 / 1 2 between | boolean | !6
1 1 0 / 2 between | boolean | !6
bo n 1 = and | boolean | NULL
n 1 = not | boolean | NULL
bo not not | boolean | t
1 not | !4
1 true or | !4
bo 's and | !4
s is_not_null | boolean | t
n 1 + is_null | boolean | t
'a is_null | boolean | f
n 1 = 'a bo c null case_else/2 | varchar(65535) | ab
n 7 = s false b 0 5 - case_else/2 | bigint | -5
1 1 = 1.5 s case_else/1 | decimal(38,1) | 1.5
bo dt 'x case_else/1 | !4
bo dt case/1 | date | 2024-02-29
bo bo false case_else/1 | boolean | t
s 1 case/1 | !4
k 7 = 1 case/1 | !2 k
1 0 / 1 = 1 case/1 | int | !6
n x.k 1 0 / coalesce/3 | int | 7
n 1 0 / coalesce/2 | int | !6
c v coalesce/2 | varchar(65535) | ab
n d coalesce/2 | decimal(38,2) | 1.50
9223372036854775807 0.5 coalesce/2 | decimal(38,1) | 9223372036854775807.0
99999999999999999999999999999999999999 0.5 coalesce/2 | decimal(38,1) | !5
1 true = | !4
true false > | boolean | t
dt @2024-03-01 < | boolean | t
@2024-02-29 '2024-02-29 = | boolean | t
'2024-02-29 @2024-02-29 = | boolean | t
@2024-13-01 | !4
@2024-1-01 | !4";

/// More of them.
const LAST_EXPRESSIONS: &str = "1.0 1 = | boolean | t
0.1 0.10 = | boolean | t
1 1.01 <> | boolean | t
v c >= | boolean | t
'a 'aa < | boolean | t
'Z 'a < | boolean | t
'é 'z > | boolean | t
9223372036854775807 2 * | bigint | !5
9223372036854775807 1.0 * | decimal(38,1) | 9223372036854775807.0
3 1.5 * | decimal(38,1) | 4.5
s s * | smallint | !5
s 2 * | int | 65534
i 1 - | int | !5
i 1 minus * | int | !5
b 2 / | bigint | 2
5 minus 2 / | int | -2
5 minus 2 % | int | -1
5 2 minus % | int | 1
b 0 % | bigint | !6
n 0 % | int | NULL
s s + 1 0 / + | int | !5
1 0 / s s + + | int | !5
d 2 / | !4
2 d % | !4
d 1.505 - | decimal(38,3) | -0.005
1 1.0 - | decimal(38,1) | 0.0
'a 1 + | !4
dt 1 + | !4
bo 1 + | !4
v minus | !4
bo minus | !4
dt minus | !4
null minus | int | NULL
1.5 minus | decimal(38,1) | -1.5
1 minus minus | int | 1
1 2 || | !4
c null || | varchar(65535) | NULL
v d || | !4
v null like | boolean | NULL
null null like | boolean | NULL
v 1 like | !4
v '_b_ not_like | boolean | f
v '_c_ not_like | boolean | t
null ::date | date | NULL
null ::boolean | boolean | NULL
d ::int | int | 2
1.5 ::int | int | 2
0.4 ::int | int | 0
99999 ::decimal(4,0) | decimal(4,0) | !5
99.995 ::decimal(4,2) | decimal(4,2) | !5
99.994 ::decimal(4,2) | decimal(4,2) | 99.99
b ::smallint | smallint | 5
i ::smallint | smallint | !5
dt ::date | date | 2024-02-29
dt ::varchar(10) | varchar(10) | 2024-02-29
dt ::varchar(9) | varchar(9) | !5
bo ::char(1) | char(1) | t
i ::varchar(11) | varchar(11) | -2147483648
i ::varchar(10) | varchar(10) | !5
'ab~~~ ::char(2) | char(2) | ab
'ab~~~ ::varchar(4) | varchar(4) | !5
'é ::char(1) | char(1) | !5
'2024-02-30 ::date | date | !5
'2024-02-29 ::date | date | 2024-02-29
'~2024-02-29 ::date | date | !5
1 ::date | !4
dt ::bigint | !4
't ::boolean | !4
bo ::int | !4
1 ::boolean | !4
'~~-1.005~ ::decimal(10,2) | decimal(10,2) | -1.01
'170141183460469231731687303715884105728 ::decimal(38,0) | decimal(38,0) | !5
'99999999999999999999999999999999999999 ::decimal(38,0) | decimal(38,0) | 99999999999999999999999999999999999999
'99999999999999999999999999999999999999.5 ::decimal(38,0) | decimal(38,0) | !5
'0.00000000000000000000000000000000000001 ::decimal(38,37) | decimal(38,37) | 0.0000000000000000000000000000000000000
'-0.4 ::decimal(3,0) | decimal(3,0) | 0
12.50 ::char(5) | char(5) | 12.50
y.s | !2 s
s zz + | !2 zz
zz s + | !2 zz
u.s | !2 s
k 1 + | !2 k
w 'z || | varchar(65535) | xyzz
x.k u.k + | int | 15
1 'x + zz + | !2 zz
n count | bigint | NULL
dt count_distinct | bigint | NULL
s sum 1 + | bigint | NULL
v min | varchar(20) | NULL
bo max | !4
c sum | !4
s sum count | !4
k max | !2 k
n sum zz + | !2 zz
dt max '2024-02-29 = | boolean | NULL";

/// In each line an operator, its left operand, and what it comes to with each right operand, in the order of `OPERANDS`.
const OPERATIONS: &str = "+ s | !5 -2147450881 32772 32768.50 !4 !4 !4 !4 NULL
+ i | -2147450881 !5 -2147483643 -2147483646.50 !4 !4 !4 !4 NULL
+ b | 32772 -2147483643 10 6.50 !4 !4 !4 !4 NULL
+ d | 32768.50 -2147483646.50 6.50 3.00 !4 !4 !4 !4 NULL
+ c | !4 !4 !4 !4 !4 !4 !4 !4 !4
+ v | !4 !4 !4 !4 !4 !4 !4 !4 !4
+ dt | !4 !4 !4 !4 !4 !4 !4 !4 !4
+ bo | !4 !4 !4 !4 !4 !4 !4 !4 !4
+ null | NULL NULL NULL NULL !4 !4 !4 !4 NULL
- s | 0 !5 32762 32765.50 !4 !4 !4 !4 NULL
- i | !5 0 -2147483653 -2147483649.50 !4 !4 !4 !4 NULL
- b | -32762 2147483653 0 3.50 !4 !4 !4 !4 NULL
- d | -32765.50 2147483649.50 -3.50 0.00 !4 !4 !4 !4 NULL
- c | !4 !4 !4 !4 !4 !4 !4 !4 !4
- v | !4 !4 !4 !4 !4 !4 !4 !4 !4
- dt | !4 !4 !4 !4 !4 !4 !4 !4 !4
- bo | !4 !4 !4 !4 !4 !4 !4 !4 !4
- null | NULL NULL NULL NULL !4 !4 !4 !4 NULL
* s | !5 !5 163835 49150.50 !4 !4 !4 !4 NULL
* i | !5 !5 -10737418240 -3221225472.00 !4 !4 !4 !4 NULL
* b | 163835 -10737418240 25 7.50 !4 !4 !4 !4 NULL
* d | 49150.50 -3221225472.00 7.50 2.2500 !4 !4 !4 !4 NULL
* c | !4 !4 !4 !4 !4 !4 !4 !4 !4
* v | !4 !4 !4 !4 !4 !4 !4 !4 !4
* dt | !4 !4 !4 !4 !4 !4 !4 !4 !4
* bo | !4 !4 !4 !4 !4 !4 !4 !4 !4
* null | NULL NULL NULL NULL !4 !4 !4 !4 NULL
/ s | 1 0 6553 !4 !4 !4 !4 !4 NULL
/ i | -65538 1 -429496729 !4 !4 !4 !4 !4 NULL
/ b | 0 0 1 !4 !4 !4 !4 !4 NULL
/ d | !4 !4 !4 !4 !4 !4 !4 !4 !4
/ c | !4 !4 !4 !4 !4 !4 !4 !4 !4
/ v | !4 !4 !4 !4 !4 !4 !4 !4 !4
/ dt | !4 !4 !4 !4 !4 !4 !4 !4 !4
/ bo | !4 !4 !4 !4 !4 !4 !4 !4 !4
/ null | NULL NULL NULL !4 !4 !4 !4 !4 NULL
% s | 0 32767 2 !4 !4 !4 !4 !4 NULL
% i | -2 0 -3 !4 !4 !4 !4 !4 NULL
% b | 5 5 0 !4 !4 !4 !4 !4 NULL
% d | !4 !4 !4 !4 !4 !4 !4 !4 !4
% c | !4 !4 !4 !4 !4 !4 !4 !4 !4
% v | !4 !4 !4 !4 !4 !4 !4 !4 !4
% dt | !4 !4 !4 !4 !4 !4 !4 !4 !4
% bo | !4 !4 !4 !4 !4 !4 !4 !4 !4
% null | NULL NULL NULL !4 !4 !4 !4 !4 NULL
|| s | !4 !4 !4 !4 !4 !4 !4 !4 !4
|| i | !4 !4 !4 !4 !4 !4 !4 !4 !4
|| b | !4 !4 !4 !4 !4 !4 !4 !4 !4
|| d | !4 !4 !4 !4 !4 !4 !4 !4 !4
|| c | !4 !4 !4 !4 abab ababc !4 !4 NULL
|| v | !4 !4 !4 !4 abcab abcabc !4 !4 NULL
|| dt | !4 !4 !4 !4 !4 !4 !4 !4 !4
|| bo | !4 !4 !4 !4 !4 !4 !4 !4 !4
|| null | !4 !4 !4 !4 NULL NULL !4 !4 NULL
= s | t f f f !4 !4 !4 !4 NULL
= i | f t f f !4 !4 !4 !4 NULL
= b | f f t f !4 !4 !4 !4 NULL
= d | f f f t !4 !4 !4 !4 NULL
= c | !4 !4 !4 !4 t f !4 !4 NULL
= v | !4 !4 !4 !4 f t !4 !4 NULL
= dt | !4 !4 !4 !4 !4 !4 t !4 NULL
= bo | !4 !4 !4 !4 !4 !4 !4 t NULL
= null | NULL NULL NULL NULL NULL NULL NULL NULL NULL
< s | f f f f !4 !4 !4 !4 NULL
< i | t f t t !4 !4 !4 !4 NULL
< b | t f f f !4 !4 !4 !4 NULL
< d | t f t f !4 !4 !4 !4 NULL
< c | !4 !4 !4 !4 f t !4 !4 NULL
< v | !4 !4 !4 !4 f f !4 !4 NULL
< dt | !4 !4 !4 !4 !4 !4 f !4 NULL
< bo | !4 !4 !4 !4 !4 !4 !4 f NULL
< null | NULL NULL NULL NULL NULL NULL NULL NULL NULL
and s | !4 !4 !4 !4 !4 !4 !4 !4 !4
and i | !4 !4 !4 !4 !4 !4 !4 !4 !4
and b | !4 !4 !4 !4 !4 !4 !4 !4 !4
and d | !4 !4 !4 !4 !4 !4 !4 !4 !4
and c | !4 !4 !4 !4 !4 !4 !4 !4 !4
and v | !4 !4 !4 !4 !4 !4 !4 !4 !4
and dt | !4 !4 !4 !4 !4 !4 !4 !4 !4
and bo | !4 !4 !4 !4 !4 !4 !4 t NULL
and null | !4 !4 !4 !4 !4 !4 !4 NULL NULL
or s | !4 !4 !4 !4 !4 !4 !4 !4 !4
or i | !4 !4 !4 !4 !4 !4 !4 !4 !4
or b | !4 !4 !4 !4 !4 !4 !4 !4 !4
or d | !4 !4 !4 !4 !4 !4 !4 !4 !4
or c | !4 !4 !4 !4 !4 !4 !4 !4 !4
or v | !4 !4 !4 !4 !4 !4 !4 !4 !4
or dt | !4 !4 !4 !4 !4 !4 !4 !4 !4
or bo | !4 !4 !4 !4 !4 !4 !4 t t
or null | !4 !4 !4 !4 !4 !4 !4 t NULL
like s | !4 !4 !4 !4 !4 !4 !4 !4 !4
like i | !4 !4 !4 !4 !4 !4 !4 !4 !4
like b | !4 !4 !4 !4 !4 !4 !4 !4 !4
like d | !4 !4 !4 !4 !4 !4 !4 !4 !4
like c | !4 !4 !4 !4 t f !4 !4 NULL
like v | !4 !4 !4 !4 f t !4 !4 NULL
like dt | !4 !4 !4 !4 !4 !4 !4 !4 !4
like bo | !4 !4 !4 !4 !4 !4 !4 !4 !4
like null | !4 !4 !4 !4 NULL NULL !4 !4 NULL";

/// The right operands of each line.
const OPERANDS: &str = "s i b d c v dt bo null";

/// In each line an expression, what it is wanted for (a condition, or a value for a column of a kind), and its kind; or
/// the number of the refusal after `!`. No aggregate may stand in it.
const WANTED: &str = "null | condition | boolean
bo | condition | boolean
s | condition | !4
'x | condition | !4
null | date | date
null | decimal(5,2) | decimal(5,2)
1 | smallint | int
1.5 | int | decimal(38,1)
d | varchar(5) | !4
c | varchar(5) | char(5)
'2024-02-29 | date | varchar(65535)
1 | date | !4
true | int | !4
dt | char(10) | !4
zz s + | condition | !2 zz
count(*) | bigint | !4
s sum | bigint | !4";

/// An expression of this form.
fn of(node: Node) -> Expr {
    Expr { node }
}

/// The literal of this form.
fn literal(written: Literal) -> Expr {
    of(Node::Literal(written))
}

/// The expression that was made last, or NULL where there is none.
fn last(made: &mut Vec<Expr>) -> Expr {
    match made.pop() {
        Some(expr) => expr,
        None => literal(Literal::Null),
    }
}

/// The same in a box.
fn last_boxed(alloc: Global, made: &mut Vec<Expr>) -> Result<Box<Expr>, AllocError> {
    Ok(Box::new(alloc, last(made))?)
}

/// The last expressions, so many of them, in a row.
fn last_list(alloc: Global, made: &mut Vec<Expr>, count: u8) -> Result<Box<Exprs>, AllocError> {
    let mut list = Exprs {
        node: ExprsNode::End,
    };
    for _ in 0..count {
        let first = last_boxed(alloc, made)?;
        let rest = Box::new(alloc, list)?;
        list = Exprs {
            node: ExprsNode::More(first, rest),
        };
    }
    Ok(Box::new(alloc, list)?)
}

/// The last branches, so many of them: each a condition and a result.
fn last_arms(alloc: Global, made: &mut Vec<Expr>, count: u8) -> Result<Box<Arms>, AllocError> {
    let mut arms = Arms {
        node: ArmsNode::End,
    };
    for _ in 0..count {
        let result = last_boxed(alloc, made)?;
        let condition = last_boxed(alloc, made)?;
        let rest = Box::new(alloc, arms)?;
        arms = Arms {
            node: ArmsNode::More(condition, result, rest),
        };
    }
    Ok(Box::new(alloc, arms)?)
}

/// A text with a space for each `~`.
fn text_of(alloc: Global, word: &str) -> Result<Text, AllocError> {
    let mut text = Text::new(alloc);
    for character in word.chars() {
        text.push(if character == '~' { ' ' } else { character })?;
    }
    Ok(text)
}

/// A number literal.
fn number_of(word: &str) -> Literal {
    let scale = match word.split_once('.') {
        Some((_, digits)) => u8::try_from(digits.len()).unwrap_or(37).min(37),
        None => 0,
    };
    let kind = Kind::Decimal {
        precision: 38,
        scale,
    };
    Literal::Number {
        coefficient: read_number(kind, word.as_bytes()).unwrap_or(0),
        scale,
    }
}

/// The two numbers in parentheses after a kind's name.
fn limits_of(text: &str) -> (u32, u8) {
    let inside = text.strip_suffix(")").unwrap_or(text);
    match inside.split_once(',') {
        Some((first, second)) => (
            first.parse::<u32>().unwrap_or(1),
            second.parse::<u8>().unwrap_or(0),
        ),
        None => (inside.parse::<u32>().unwrap_or(1), 0),
    }
}

/// A kind by its name.
fn kind_of(name: &str) -> Kind {
    if let Some(limits) = name.strip_prefix("decimal(") {
        let (precision, scale) = limits_of(limits);
        return Kind::Decimal {
            precision: u8::try_from(precision).unwrap_or(38),
            scale,
        };
    }
    if let Some(limits) = name.strip_prefix("char(") {
        return Kind::Char {
            length: limits_of(limits).0,
        };
    }
    if let Some(limits) = name.strip_prefix("varchar(") {
        return Kind::Varchar {
            length: limits_of(limits).0,
        };
    }
    match name {
        "smallint" => Kind::Small,
        "int" => Kind::Int,
        "bigint" => Kind::Big,
        "date" => Kind::Date,
        _ => Kind::Bool,
    }
}

/// What an operator between two operands is.
fn operator_of(word: &str) -> Option<Op> {
    match word {
        "+" => Some(Op::Add),
        "-" => Some(Op::Subtract),
        "*" => Some(Op::Multiply),
        "/" => Some(Op::Divide),
        "%" => Some(Op::Remainder),
        _ => None,
    }
}

/// What a sign between two operands compares.
fn comparison_of(word: &str) -> Option<Comparison> {
    match word {
        "=" => Some(Comparison::Equal),
        "<>" => Some(Comparison::Unequal),
        "<" => Some(Comparison::Less),
        "<=" => Some(Comparison::AtMost),
        ">" => Some(Comparison::Greater),
        ">=" => Some(Comparison::AtLeast),
        _ => None,
    }
}

/// What an aggregate's name means.
fn aggregate_of(word: &str) -> Option<Aggregate> {
    match word {
        "count" => Some(Aggregate::Count),
        "count_distinct" => Some(Aggregate::CountDistinct),
        "sum" => Some(Aggregate::Sum),
        "min" => Some(Aggregate::Min),
        "max" => Some(Aggregate::Max),
        _ => None,
    }
}

/// What a form with a list makes of the last expressions.
fn counted(alloc: Global, form: &str, count: u8, made: &mut Vec<Expr>) -> Result<Expr, AllocError> {
    Ok(of(match form {
        "in" | "not_in" => {
            let list = last_list(alloc, made, count)?;
            Node::InList(form == "not_in", last_boxed(alloc, made)?, list)
        }
        "case" => Node::Case(last_arms(alloc, made, count)?, None),
        "case_else" => {
            let other = last_boxed(alloc, made)?;
            Node::Case(last_arms(alloc, made, count)?, Some(other))
        }
        _ => Node::Coalesce(last_list(alloc, made, count)?),
    }))
}

/// What a form of two operands makes of the last two expressions.
fn of_two(alloc: Global, word: &str, made: &mut Vec<Expr>) -> Result<Expr, AllocError> {
    let b = last_boxed(alloc, made)?;
    let a = last_boxed(alloc, made)?;
    if let Some(op) = operator_of(word) {
        return Ok(of(Node::Arithmetic(op, a, b)));
    }
    if let Some(comparison) = comparison_of(word) {
        return Ok(of(Node::Compared(comparison, a, b)));
    }
    Ok(of(match word {
        "||" => Node::Joined(a, b),
        "and" => Node::And(a, b),
        "or" => Node::Or(a, b),
        "like" => Node::Like(false, a, b),
        _ => Node::Like(true, a, b),
    }))
}

/// What BETWEEN makes of the last three expressions.
fn of_three(alloc: Global, word: &str, made: &mut Vec<Expr>) -> Result<Expr, AllocError> {
    let high = last_boxed(alloc, made)?;
    let low = last_boxed(alloc, made)?;
    let a = last_boxed(alloc, made)?;
    Ok(of(Node::Between(word == "not_between", a, low, high)))
}

/// A column by its name, or by its source's and its own.
fn column_of(alloc: Global, word: &str) -> Result<Expr, AllocError> {
    Ok(of(match word.split_once('.') {
        Some((source, name)) => Node::Column {
            source: Some(Text::from_str(alloc, source)?),
            name: Text::from_str(alloc, name)?,
        },
        None => Node::Column {
            source: None,
            name: Text::from_str(alloc, word)?,
        },
    }))
}

/// An expression without operands.
fn atom(alloc: Global, word: &str) -> Result<Expr, AllocError> {
    if let Some(text) = word.strip_prefix("'") {
        return Ok(literal(Literal::Words {
            text: text_of(alloc, text)?,
        }));
    }
    if let Some(text) = word.strip_prefix("@") {
        return Ok(literal(Literal::Date {
            text: text_of(alloc, text)?,
        }));
    }
    match word {
        "true" | "false" => Ok(literal(Literal::Truth {
            value: word == "true",
        })),
        "null" => Ok(literal(Literal::Null)),
        "count(*)" => Ok(of(Node::CountRows)),
        _
            if word
                .as_bytes()
                .first()
                .is_some_and(|byte| byte.is_ascii_digit()) => { Ok(literal(number_of(word))) }
        _ => column_of(alloc, word),
    }
}

/// The expression that a word is, or makes of the last ones.
fn next(alloc: Global, word: &str, made: &mut Vec<Expr>) -> Result<Expr, AllocError> {
    if let Some(kind) = word.strip_prefix("::") {
        let a = last_boxed(alloc, made)?;
        return Ok(of(Node::Cast(a, kind_of(kind))));
    }
    if let Some(function) = aggregate_of(word) {
        let a = last_boxed(alloc, made)?;
        return Ok(of(Node::Aggregate(function, a)));
    }
    match word {
        "minus" => Ok(of(Node::Negative(last_boxed(alloc, made)?))),
        "not" => Ok(of(Node::Not(last_boxed(alloc, made)?))),
        "is_null" => Ok(of(Node::IsNull(false, last_boxed(alloc, made)?))),
        "is_not_null" => Ok(of(Node::IsNull(true, last_boxed(alloc, made)?))),
        "between" | "not_between" => of_three(alloc, word, made),
        "+"
        | "-"
        | "*"
        | "/"
        | "%"
        | "||"
        | "="
        | "<>"
        | "<"
        | "<="
        | ">"
        | ">="
        | "and"
        | "or"
        | "like"
        | "not_like" => of_two(alloc, word, made),
        _ => match word.split_once('/') {
            Some((form, count)) => { counted(alloc, form, count.parse::<u8>().unwrap_or(0), made) }
            None => atom(alloc, word),
        },
    }
}

/// The expression that words in postfix form write.
fn read(alloc: Global, words: &str) -> Result<Expr, AllocError> {
    let mut made = Vec::new(alloc);
    for word in words.split(' ') {
        let expr = next(alloc, word, &mut made)?;
        made.push(expr)?;
    }
    Ok(last(&mut made))
}

/// A value of a kind.
fn value_of(alloc: Global, kind: Kind, word: &str) -> Result<Value, AllocError> {
    if word == "null" {
        return Ok(Value::Null);
    }
    Ok(match kind {
        Kind::Char { .. } | Kind::Varchar { .. } => Value::Words(Text::from_str(alloc, word)?),
        Kind::Date => Value::Day(read_date(word.as_bytes()).unwrap_or(0)),
        Kind::Bool => Value::Truth(word == "t"),
        _ => Value::Number(read_number(kind, word.as_bytes()).unwrap_or(0)),
    })
}

/// The sources in sight, and their joined row.
fn sight_and_row(alloc: Global) -> Result<(Sight, Row), AllocError> {
    let mut first = List::new(alloc);
    let mut second = List::new(alloc);
    let mut values = List::new(alloc);
    for line in COLUMNS.lines() {
        let mut fields = line.split(' ');
        let alias = fields.next().unwrap_or("");
        let name = Text::from_str(alloc, fields.next().unwrap_or(""))?;
        let kind = kind_of(fields.next().unwrap_or(""));
        values.push(value_of(alloc, kind, fields.next().unwrap_or(""))?)?;
        if alias == "x" {
            first.push(NamedColumn { name, kind })?;
        } else {
            second.push(NamedColumn { name, kind })?;
        }
    }
    let mut sources = List::new(alloc);
    sources.push(NamedSource {
        alias: Text::from_str(alloc, "x")?,
        columns: first,
    })?;
    sources.push(NamedSource {
        alias: Text::from_str(alloc, "u")?,
        columns: second,
    })?;
    Ok((Sight::new(alloc, sources)?, Row { values }))
}

/// A kind's name.
fn kind_name(alloc: Global, kind: Kind) -> Result<String, AllocError> {
    match kind {
        Kind::Small => format!(in alloc; "smallint"),
        Kind::Int => format!(in alloc; "int"),
        Kind::Big => format!(in alloc; "bigint"),
        Kind::Decimal { precision, scale } => format!(in alloc; "decimal({precision},{scale})"),
        Kind::Char { length } => format!(in alloc; "char({length})"),
        Kind::Varchar { length } => format!(in alloc; "varchar({length})"),
        Kind::Date => format!(in alloc; "date"),
        Kind::Bool => format!(in alloc; "boolean"),
    }
}

/// What the value of a bound expression is printed as, or the number of its fault after `!`.
fn value_told(alloc: Global, bound: &BoundExpr, row: &Row) -> Result<String, AllocError> {
    match evaluate(alloc, bound, row) {
        Ok(value) => match show(alloc, &value, bound.kind())? {
            Field::Shown(text) => format!(in alloc; "{}", text.as_str()),
            Field::Null => format!(in alloc; "NULL"),
        },
        Err(ExecFault::Refused(Fault::Range)) => format!(in alloc; "!5"),
        Err(ExecFault::Refused(Fault::Zero)) => format!(in alloc; "!6"),
        Err(ExecFault::Memory) => format!(in alloc; "out of memory"),
    }
}

/// What an expression is refused for.
fn refusal_told(alloc: Global, fault: BindFault) -> Result<String, AllocError> {
    match fault {
        BindFault::Unknown { name } => format!(in alloc; "!2 {}", name.as_str()),
        BindFault::Clash => format!(in alloc; "!4"),
        BindFault::Memory => format!(in alloc; "out of memory"),
    }
}

/// An expression's kind and value, or its refusal.
fn told(alloc: Global, words: &str, sight: &Sight, row: &Row) -> Result<String, AllocError> {
    let expr = read(alloc, words)?;
    match bind_expression(alloc, &expr, sight, true, Wanted::Anything) {
        Ok(bound) => {
            let kind = kind_name(alloc, bound.kind())?;
            let value = value_told(alloc, &bound, row)?;
            format!(in alloc; "{} | {}", kind.as_str(), value.as_str())
        }
        Err(fault) => refusal_told(alloc, fault),
    }
}

#[test]
fn expressions_come_to_what_they_mean(rt: HostRuntime) -> Result<(), Fail> {
    let alloc = rt.alloc();
    let (sight, row) = sight_and_row(alloc)?;
    for table in [
        EXPRESSIONS,
        MORE_EXPRESSIONS,
        FURTHER_EXPRESSIONS,
        LAST_EXPRESSIONS,
    ] {
        for line in table.lines() {
            if let Some((words, expected)) = line.split_once(" | ") {
                let told = told(alloc, words, &sight, &row)?;
                assert_eq!(rt; told.as_str(), expected, "{words}");
            }
        }
    }
    Ok(())
}

/// The value or the refusal alone of what is told.
fn outcome_of(told: &str) -> &str {
    match told.split_once(" | ") {
        Some((_, value)) => value,
        None => told,
    }
}

#[test]
fn operations_take_each_pair_of_kinds(rt: HostRuntime) -> Result<(), Fail> {
    let alloc = rt.alloc();
    let (sight, row) = sight_and_row(alloc)?;
    for line in OPERATIONS.lines() {
        let (head, outcomes) = line.split_once(" | ").unwrap_or((line, ""));
        let (operator, left) = head.split_once(' ').unwrap_or((head, ""));
        let mut expected = outcomes.split(' ');
        for right in OPERANDS.split(' ') {
            let words = format!(in alloc; "{left} {right} {operator}")?;
            let told = told(alloc, words.as_str(), &sight, &row)?;
            assert_eq!(rt;
                outcome_of(told.as_str()),
                expected.next().unwrap_or(""),
                "{words}"
            );
        }
    }
    Ok(())
}

#[test]
fn expressions_are_bound_as_they_are_wanted(rt: HostRuntime) -> Result<(), Fail> {
    let alloc = rt.alloc();
    let (sight, _) = sight_and_row(alloc)?;
    for line in WANTED.lines() {
        let mut parts = line.split(" | ");
        let expr = read(alloc, parts.next().unwrap_or(""))?;
        let wanted = match parts.next().unwrap_or("") {
            "condition" => Wanted::Condition,
            kind => Wanted::Assigned(kind_of(kind)),
        };
        let told = match bind_expression(alloc, &expr, &sight, false, wanted) {
            Ok(bound) => kind_name(alloc, bound.kind())?,
            Err(fault) => refusal_told(alloc, fault)?,
        };
        assert_eq!(rt; told.as_str(), parts.next().unwrap_or(""), "{line}");
    }
    Ok(())
}
