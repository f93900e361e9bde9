//! Texts of programs with several scripts.

/// The second script changes a type that the first one's frames use.
pub const CHANGED: &[u8] = b"class A
setup
type A.g : () -> Int
def A.g() 1 end
type A.f : () -> Int
def A.f() self.g end
end
script one
print A.new.f
end
script two
print type? A.g : () -> Int
end
";

/// The report of it where the type was changed, and where a frame used it.
pub const CHANGED_REPORTS: [&str; 2] = [
    "setup\ndone\ncalls 0 own 0 shared 0 fresh 0\nscript one\n> 1\ndone\ncalls 2 own 0 shared 0 fresh 2\nscript two\n> true\ndone\ncalls 0 own 0 shared 0 fresh 0\n",
    "setup\ndone\ncalls 0 own 0 shared 0 fresh 0\nscript one\n> 1\ndone\ncalls 2 own 0 shared 0 fresh 2\nscript two\n> false\ndone\ncalls 0 own 0 shared 0 fresh 0\n",
];

/// The second script changes a definition that the first one calls.
pub const DEFINED: &[u8] = b"class A
setup
type A.f : () -> Int
def A.f() 1 end
end
script one
print A.new.f
end
script two
def A.f() 2 end
type A.g : () -> Int
end
";

/// The report of it where the definition came first.
pub const DEFINED_BEFORE: &str =
    "setup\ndone\ncalls 0 own 0 shared 0 fresh 0\nscript one\n> 2\ndone\ncalls 1 own 0 shared 0 fresh 1\nscript two\ndone\ncalls 0 own 0 shared 0 fresh 0\n";

/// Each script calls what the other defines.
pub const CROSSED: &[u8] = b"class A
setup
type A.a : () -> Int
type A.b : () -> Int
end
script one
def A.a() 1 end
A.new.b
end
script two
def A.b() 2 end
A.new.a
end
";

/// The reports of it: both find a definition, or one of them is too early.
pub const CROSSED_REPORTS: [&str; 3] = [
    "setup\ndone\ncalls 0 own 0 shared 0 fresh 0\nscript one\ndone\ncalls 1 own 0 shared 0 fresh 1\nscript two\ndone\ncalls 1 own 0 shared 0 fresh 1\n",
    "setup\ndone\ncalls 0 own 0 shared 0 fresh 0\nscript one\nstop NoBody 8:7\ncalls 1 own 0 shared 0 fresh 0\nscript two\ndone\ncalls 1 own 0 shared 0 fresh 1\n",
    "setup\ndone\ncalls 0 own 0 shared 0 fresh 0\nscript one\ndone\ncalls 1 own 0 shared 0 fresh 1\nscript two\nstop NoBody 12:7\ncalls 1 own 0 shared 0 fresh 0\n",
];

/// A setup that stops.
pub const STOPPED: &[u8] = b"class A
setup
A.new.f
end
script one
print 1
end
";

pub const STOPPED_REPORT: &str = "setup\nstop NoBody 3:7\ncalls 1 own 0 shared 0 fresh 0\n";
