//! The program `jahob`: the words, the files and the streams of the host, handed to the top call.
//!
//! What it says is shown by the examples below: the files, the words behind the program's name, what it writes, and
//! its status. Each of them is a case of `jahob_cases`, so it is tried at each run of the gate; docs/FORMATS.md says
//! what each line means, docs/LANGUAGE.md what a source may hold.
//!
//! ## A program is proved
//!
//! Each line of the report is about one thing that is to be proved: for what, at which place, and what came of it.
//! Where all is proved the status is 0, and else 1; below what isn't proved stand two lines that say why not, by
//! sizes and by instances.
//!
//! ### The swap
//!
//! ```text
//! $ cat a.j
//! class Swap {
//!   static Object a;
//!   static Object b;
//!   static Object t;
//!   public static void swap()
//!   /*: modifies a, b, t
//!       ensures "a = old b & b = old a" */
//!   { t = a; a = b; b = t; }
//! }
//! $ jahob verify a.j
//! Swap.swap 1 post 7:15 trivial
//! Swap.swap 2 post 7:15 trivial
//! accepted: methods 1, sequents 2
//! $ echo $?
//! 0
//! ```
//!
//! ### A wrong swap
//!
//! ```text
//! $ cat a.j
//! class Swap {
//!   static Object a;
//!   static Object b;
//!   static Object t;
//!   public static void swap()
//!   /*: modifies a, b, t
//!       ensures "a = old b & b = old a" */
//!   { t = a; b = t; a = b; }
//! }
//! $ jahob verify a.j
//! Swap.swap 1 post 7:15 unproved
//!   bapa refuted: element 0 class 0 region 0; element 1 class 0 region 0; element 2 class 2 region 0
//!   local open:
//! Swap.swap 2 post 7:15 trivial
//! rejected: methods 1, sequents 2, unproved 1
//! $ echo $?
//! 1
//! ```
//!
//! ### A static that may not be written
//!
//! ```text
//! $ cat a.j
//! class A { static Object a; static void m() { a = null; } }
//! $ jahob verify a.j
//! A.m 1 post 1:40 trivial
//! A.m 2 frame 1:40 unproved
//!   bapa refuted: element 0 class 0 region 0; element 1 class 1 region 0
//!   local open:
//! rejected: methods 1, sequents 2, unproved 1
//! $ echo $?
//! 1
//! ```
//!
//! ### Two names that may be of one object
//!
//! ```text
//! $ cat a.j
//! class C { int f; }
//! class T {
//!   static void m(C a, C b)
//!   /*: requires "a ~= null & b ~= null" modifies C.f */
//!   { a.f = 1; b.f = 2; //: assert "a..C.f = 1";
//!   }
//! }
//! $ jahob verify a.j
//! T.m 1 null 5:5 trivial
//! T.m 2 null 5:14 trivial
//! T.m 3 assert 5:34 unproved
//!   bapa refuted: element 0 class 0 region 0; number 0 0 - 0
//!   local open: a = a; b = b; b = a; a = b
//! T.m 4 post 3:15 trivial
//! rejected: methods 1, sequents 4, unproved 1
//! $ echo $?
//! 1
//! ```
//!
//! ### A precondition at two calls
//!
//! ```text
//! $ cat a.j
//! class K {
//!   static Object a;
//!   static void set() /*: requires "True" modifies a ensures "a = null" */ { a = null; }
//!   static void twice() /*: modifies a ensures "a = null" */ { set(); set(); }
//! }
//! $ jahob verify a.j
//! K.set 1 post 3:60 trivial
//! K.twice 1 pre 4:62 trivial
//! K.twice 2 pre 4:69 trivial
//! K.twice 3 post 4:46 trivial
//! accepted: methods 2, sequents 4
//! $ echo $?
//! 0
//! ```
//!
//! ### A loop whose body breaks its invariant
//!
//! ```text
//! $ cat a.j
//! class A { static void w() { int i = 0; while /*: inv "i = 0" */ (i != 3) { i = i + 1; } } }
//! $ jahob verify a.j
//! A.w 1 loop 1:54 trivial
//! A.w 2 kept 1:54 unproved
//!   bapa refuted: element 0 class 0 region 0; number 0 0 - 0
//!   local open:
//! A.w 3 post 1:23 trivial
//! rejected: methods 1, sequents 3, unproved 1
//! $ echo $?
//! 1
//! ```
//!
//! ### An invariant of a loop, at its entry, in its body and behind it
//!
//! ```text
//! $ cat a.j
//! class K { static void m(int k) { int i = 0; while /*: inv low: "0 = i | k = i" */ (i != k)
//! { /*: assert "0 = i | k = i"; assert "i ~= k"; */ }
//! /*: assert "0 = i | k = i"; assert "~ (i ~= k)"; */ } }
//! $ jahob verify a.j
//! K.m 1 loop 1:64 bapa
//! K.m 2 assert 2:14 trivial
//! K.m 3 assert 2:38 trivial
//! K.m 4 kept 1:64 trivial
//! K.m 5 assert 3:12 trivial
//! K.m 6 assert 3:36 trivial
//! K.m 7 post 1:23 trivial
//! accepted: methods 1, sequents 7
//! $ echo $?
//! 0
//! ```
//!
//! ### Objects only come into being in a loop
//!
//! ```text
//! $ cat a.j
//! class K { static void m(boolean d) { K k; boolean c = d; while (c) { k = new K(); c = false; }
//! /*: assert "old alloc <= alloc"; assert "old K <= K"; assert "old L <= L"; assert "K <= old K"; */ } }
//! class L { }
//! $ jahob verify a.j
//! K.m 1 assert 2:12 trivial
//! K.m 2 assert 2:41 trivial
//! K.m 3 assert 2:62 bapa
//! K.m 4 assert 2:83 unproved
//!   bapa refuted: region 2 rest 1; element 0 class 0 region 0
//!   local open:
//! K.m 5 post 1:23 trivial
//! rejected: methods 1, sequents 5, unproved 1
//! $ echo $?
//! 1
//! ```
//!
//! ### A call on this needs no check
//!
//! ```text
//! $ cat a.j
//! class K { void s() { } void m() { s(); this.s(); } static void t(K p) { p.s(); } }
//! $ jahob verify a.j
//! K.s 1 post 1:16 trivial
//! K.m 1 post 1:29 trivial
//! K.t 1 null 1:73 unproved
//!   bapa refuted: element 0 class 0 region 0; element 1 class 0 region 0
//!   local open: p = null
//! K.t 2 post 1:64 trivial
//! rejected: methods 3, sequents 4, unproved 1
//! $ echo $?
//! 1
//! ```
//!
//! ### A frame is known behind a call
//!
//! ```text
//! $ cat a.j
//! class K { static Object a; static void s() { a = a; } static void m() { s(); /*: assert "a = old a"; */ } }
//! $ jahob verify a.j
//! K.s 1 post 1:40 trivial
//! K.s 2 frame 1:40 trivial
//! K.m 1 assert 1:89 trivial
//! K.m 2 post 1:67 trivial
//! K.m 3 frame 1:67 trivial
//! accepted: methods 2, sequents 5
//! $ echo $?
//! 0
//! ```
//!
//! ### A method that is called writes for its caller too
//!
//! ```text
//! $ cat a.j
//! class K { static Object a; static void s() /*: modifies a */ { a = null; } static void m() { s(); } }
//! $ jahob verify a.j
//! K.s 1 post 1:40 trivial
//! K.m 1 post 1:88 trivial
//! K.m 2 frame 1:88 unproved
//!   bapa refuted: element 0 class 0 region 0; element 1 class 0 region 0; element 2 class 2 region 0
//!   local open:
//! rejected: methods 2, sequents 3, unproved 1
//! $ echo $?
//! 1
//! ```
//!
//! ### Invariants in public methods and in others
//!
//! ```text
//! $ cat a.j
//! class K { static Object a; /*: invariant "a ~= null"; */
//! public static void p() { } static void q() { } private static void r() { /*: assert "a ~= null"; */ }
//! public static void w() /*: modifies a */ { /*: assert "a ~= null"; */ a = null; } }
//! $ jahob verify a.j
//! K.p 1 post 2:20 trivial
//! K.p 2 inv 1:42 trivial
//! K.q 1 post 2:40 trivial
//! K.r 1 assert 2:85 unproved
//!   bapa refuted: element 0 class 0 region 0; element 1 class 0 region 0
//!   local open: K.a = null
//! K.r 2 post 2:68 trivial
//! K.w 1 assert 3:55 trivial
//! K.w 2 post 3:20 trivial
//! K.w 3 inv 1:42 unproved
//!   bapa refuted: element 0 class 0 region 0
//!   local open: null = null
//! rejected: methods 4, sequents 8, unproved 2
//! $ echo $?
//! 1
//! ```
//!
//! ### A list, whose goals need more than a look
//!
//! ```text
//! $ cat a.j
//! class Node { Node next; }
//! class List {
//!   private static Node first;
//!   /*: public static specvar content :: objset;
//!       vardefs "content == {x. x ~= null & rtrancl_pt (% u v. u..Node.next = v) first x}";
//!       invariant shape: "tree [Node.next]";
//!       invariant root: "first = null | (ALL y. y..Node.next ~= first)"; */
//!   public static void add(Node n)
//!   /*: requires "n ~= null & n ~: content & n..Node.next = null & (ALL y. y..Node.next ~= n)"
//!       modifies content
//!       ensures "content = old content Un {n}" */
//!   { n.next = first; first = n; }
//! }
//! $ jahob verify a.j
//! List.add 1 null 12:5 trivial
//! List.add 2 post 11:15 local
//! List.add 3 inv 6:24 local
//! List.add 4 inv 6:24 local
//! List.add 5 inv 7:23 local
//! accepted: methods 1, sequents 5
//! $ echo $?
//! 0
//! ```
//!
//! ### A derived field
//!
//! ```text
//! $ cat a.j
//! class Node { Node next; Node prev; }
//! class T {
//!   /*: invariant back: "ALL x y. x..Node.prev = y --> y = x..Node.next"; */
//!   public static void m(Node a, Node b, Node c)
//!   /*: requires "a..Node.next = b & c = a" ensures "c..Node.prev = b" */
//!   { }
//! }
//! $ jahob verify a.j
//! T.m 1 post 5:51 local
//! T.m 2 inv 3:23 local
//! accepted: methods 1, sequents 2
//! $ echo $?
//! 0
//! ```
//!
//! ### A stack that counts its objects
//!
//! ```text
//! $ cat a.j
//! class Node { Node next; }
//! class Stack {
//!   private static Node first;
//!   private static int size;
//!   /*: public static specvar content :: objset;
//!       vardefs "content == {x. x ~= null & rtrancl_pt (% u v. u..Node.next = v) first x}";
//!       invariant shape: "tree [Node.next]";
//!       invariant root: "first = null | (ALL y. y..Node.next ~= first)";
//!       invariant count: "card content = size"; */
//!   public static void push(Node n)
//!   /*: requires "n ~= null & n ~: content & n..Node.next = null & (ALL y. y..Node.next ~= n)"
//!       modifies content, size
//!       ensures "content = old content Un {n}" */
//!   { n.next = first; first = n; size = size + 1; //: note grown: "content = old content Un {n}";
//!   }
//! }
//! $ jahob verify a.j
//! Stack.push 1 null 14:5 trivial
//! Stack.push 2 note 14:65 local
//! Stack.push 3 post 13:15 trivial
//! Stack.push 4 inv 7:24 local
//! Stack.push 5 inv 7:24 local
//! Stack.push 6 inv 8:23 local
//! Stack.push 7 inv 9:24 bapa
//! accepted: methods 1, sequents 7
//! $ echo $?
//! 0
//! ```
//!
//! ## A source is refused
//!
//! The first fault in the text is said, with its number, its place and, for a rule of types, the rule. The status
//! is 3.
//!
//! ### A cycle through two classes
//!
//! ```text
//! $ cat a.j
//! class A { /*: static specvar p :: bool; vardefs "p == B.q"; */ }
//! class B { /*: static specvar q :: bool; vardefs "q == A.p"; */ }
//! $ jahob verify a.j
//! refused 8 p
//! $ echo $?
//! 3
//! ```
//!
//! ### Of two broken rules the one that is first in the text
//!
//! ```text
//! $ cat a.j
//! class A { static Object a;
//!   static void m() { a = 1; }
//!   static void m() { a = b; }
//! }
//! $ jahob verify a.j
//! refused 11 rule 16 at 2:25
//! $ echo $?
//! 3
//! ```
//!
//! ## A method is run
//!
//! A run takes a method and a heap, and prints the result and the heap at the end. Its status says how it ended.
//!
//! ### The swap is run
//!
//! ```text
//! $ cat a.j
//! class Swap {
//!   static Object a;
//!   static Object b;
//!   static Object t;
//!   public static void swap()
//!   /*: modifies a, b, t
//!       ensures "a = old b & b = old a" */
//!   { t = a; a = b; b = t; }
//! }
//! $ cat h
//! universe 2
//! class Object 1 2
//! static Swap.a 1
//! static Swap.b 2
//! $ jahob run a.j Swap.swap h
//! universe 2
//! class Object 1 2
//! static Swap.a 2
//! static Swap.b 1
//! static Swap.t 1
//! $ echo $?
//! 0
//! ```
//!
//! ### A node is put in front of a list
//!
//! ```text
//! $ cat a.j
//! class N {
//!   N next;
//!   static N head;
//!   static void push() {
//!     N n;
//!     n = new N();
//!     n.next = head;
//!     head = n;
//!   }
//! }
//! $ cat h
//! universe 3
//! class N 1
//! static N.head 1
//! $ jahob run a.j N.push h
//! universe 3
//! class N 1 2
//! static N.head 2
//! field N.next 2 1
//! $ echo $?
//! 0
//! ```
//!
//! ### Five calls of itself
//!
//! ```text
//! $ cat a.j
//! class F {
//!   static int fac(int n) {
//!     if (n <= 0) return 1;
//!     int r = 0;
//!     r = F.fac(n - 1);
//!     return 2 * r;
//!   }
//! }
//! $ cat h
//! universe 0
//! arg n 5
//! $ jahob run a.j F.fac h
//! result 32
//! universe 0
//! $ echo $?
//! 0
//! ```
//!
//! ### A ghost variable gets a member
//!
//! ```text
//! $ cat a.j
//! class S {
//!   /*: public ghost specvar content :: objset; */
//!   S next;
//!   void add(S p)
//!   /*: modifies content */
//!   {
//!     //: content := "content Un {p}"
//!     //: assert "p : content"
//!   }
//! }
//! $ cat h
//! universe 3
//! class S 1 2 3
//! field S.content 1 {3}
//! this 1
//! arg p 2
//! $ jahob run a.j S.add h
//! universe 3
//! class S 1 2 3
//! field S.content 1 {2 3}
//! $ echo $?
//! 0
//! ```
//!
//! ### A sum over a list of three
//!
//! ```text
//! $ cat a.j
//! class L {
//!   L next;
//!   int v;
//!   static int sum(L p) {
//!     int s = 0;
//!     L q = p;
//!     while (q != null) { s = s + q.v; q = q.next; }
//!     return s;
//!   }
//! }
//! $ cat h
//! universe 3
//! class L 1 2 3
//! field L.next 1 2
//! field L.next 2 3
//! field L.v 1 5
//! field L.v 2 6
//! field L.v 3 -20
//! arg p 1
//! $ jahob run a.j L.sum h
//! result -9
//! universe 3
//! class L 1 2 3
//! field L.next 1 2
//! field L.next 2 3
//! field L.v 1 5
//! field L.v 2 6
//! field L.v 3 -20
//! $ echo $?
//! 0
//! ```
//!
//! ### Two parameters of which the first is null
//!
//! ```text
//! $ cat a.j
//! class P {
//!   int a;
//!   static int both(P x, P y) {
//!     x.a = 3;
//!     y.a = 4;
//!     return x.a;
//!   }
//! }
//! $ cat h
//! universe 2
//! class P 1 2
//! arg x 0
//! arg y 1
//! $ jahob run a.j P.both h
//! null at 4:5
//! $ echo $?
//! 10
//! ```
//!
//! ### Null is to get the result of a call, in which an assert fails
//!
//! ```text
//! $ cat a.j
//! class A { int f; static int k(int i) { /*: assert "i = 0" */ return i; } static void m(A p) { p.f = k(1); } }
//! $ cat h
//! universe 1
//! arg p 0
//! $ jahob run a.j A.m h
//! assert at 1:51
//! $ echo $?
//! 11
//! ```
//!
//! ### Null is to get a new object, and none is free
//!
//! ```text
//! $ cat a.j
//! class A { A f; static void m(A p) { p.f = new A(); } }
//! $ cat h
//! universe 0
//! arg p 0
//! $ jahob run a.j A.m h
//! no object at 1:37
//! $ echo $?
//! 12
//! ```
//!
//! ### A loop without end
//!
//! ```text
//! $ cat a.j
//! class A { static void m() { while (true) { } } }
//! $ cat h
//! universe 0
//! $ jahob run a.j A.m h
//! steps out
//! $ echo $?
//! 13
//! ```
//!
//! ### The greatest number and one
//!
//! ```text
//! $ cat a.j
//! class A { static int up(int k) { return k + 1; } }
//! $ cat h
//! universe 0
//! arg k 9223372036854775807
//! $ jahob run a.j A.up h
//! overflow at 1:41
//! $ echo $?
//! 14
//! ```
//!
//! ### The source as its own heap
//!
//! ```text
//! $ cat a.j
//! class A { static void m() { } }
//! $ jahob run a.j A.m a.j
//! heap 9 line 1
//! $ echo $?
//! 15
//! ```
//!
//! ## A program is made and proved
//!
//! A number and how many methods there are to be say which program it is; one line sums up what was proved of it.
//!
//! ### Six methods
//!
//! ```text
//! $ jahob gen 5 6
//! gen 5 6: methods 6, sequents 14, trivial 8, bapa 2, local 4, unproved 0
//! $ echo $?
//! 0
//! ```
#![tactic(auto)]

ghost use Rattle.std.specs.Prelude.{◌≡◌, ◌≢◌, [], IfErr, IfOk, map, string_bytes};
ghost use Rattle.std.specs.IoError.{error_kind};
ghost use Rattle.jahob.specs.jh_reply.Causes.{Answered, Delivered, due, files_seen, no_memory, sink_seen};

use jahob::{jahob, say_no_memory};
use jh_files::{Files, HostFiles, HostSink, Sink};
use std::alloc::Global;
use std::io::ErrorKind;
use std::process::ExitCode;
use std::{env, io};

/// The words after the program's name.
fn words(rt: &HostRuntime) -> io::Result<Vec<String>> {
    let mut words = Vec::new(rt.alloc());
    for word in env::args(rt)?.skip(1) {
        words.push(word)?;
    }
    Ok(words)
}

/// What the words after the program's name come to, and the exit status. Where one of them isn't UTF-8 they ask for nothing, as no
/// words do; where there was no memory for them, that is said.
fn answer<F: Files, O: Sink, E: Sink>(
    alloc: Global,
    words: &io::Result<Vec<String>>,
    files: &mut F,
    out: &mut O,
    err: &mut E,
) -> u8
    ensures words { IfOk words.now (λ came. Answered (map (λ word. string_bytes word) came.items)
        (files_seen (F.holds files.old) (F.faults files.old) (F.faults files.new))
        (sink_seen (O.written out.old) (O.written out.new) (O.faults out.old) (O.faults out.new))
        (sink_seen (E.written err.old) (E.written err.new) (E.faults err.old) (E.faults err.new))
        result) }
    ensures no_text { IfErr words.now (λ fault. error_kind fault ≡ ErrorKind.InvalidData → Answered []
        (files_seen (F.holds files.old) (F.faults files.old) (F.faults files.new))
        (sink_seen (O.written out.old) (O.written out.new) (O.faults out.old) (O.faults out.new))
        (sink_seen (E.written err.old) (E.written err.new) (E.faults err.old) (E.faults err.new))
        result) }
    ensures no_memory { IfErr words.now (λ fault. error_kind fault ≢ ErrorKind.InvalidData → Delivered (due no_memory)
        (sink_seen (O.written out.old) (O.written out.new) (O.faults out.old) (O.faults out.new))
        (sink_seen (E.written err.old) (E.written err.new) (E.faults err.old) (E.faults err.new))
        result) }
{
    match words {
        Ok(words) => jahob(alloc, words.as_slice(), files, out, err),
        Err(fault) => {
            if fault.kind() == ErrorKind::InvalidData {
                jahob(alloc, &[], files, out, err)
            } else {
                say_no_memory(out, err)
            }
        }
    }
}

/// Calls `jahob` with the words after the program's name, the files of the host and its two streams, and ends with its status.
fn main(rt: HostRuntime) -> ExitCode {
    let mut files = HostFiles { rt: &rt, failed: 0 };
    let mut out = HostSink {
        inner: rt.stdout(),
        failed: 0,
    };
    let mut err = HostSink {
        inner: rt.stderr(),
        failed: 0,
    };
    ExitCode::from(answer(rt.alloc(), &words(&rt), &mut files, &mut out, &mut err))
}
