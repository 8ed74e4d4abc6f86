//! Whole scripts, with what they print and the message that they end with.
use crate::tests::ends_with;
use std::test::Fail;

#[test]
fn whole_scripts(rt: HostRuntime) -> Result<(), Fail> {
    let rows = [
        (
            "a = full(2, 100, int8)\nprint(a + a)",
            0,
            "[-56, -56]\n",
            "",
        ),
        (
            "a = full(2, 1)\nprint(a)\nb = full(2, 1, uint64)\nprint(a + b)",
            4,
            "[1, 1]\n",
            "line 4: type\n",
        ),
        (
            "a = full(1, -7)\nprint(a // 2)\nprint(a % 2)",
            0,
            "[-4]\n[1]\n",
            "",
        ),
        (
            "a = arange(3)\nprint(a)\nb = full(3, 1) // a\nprint(b)",
            4,
            "[0, 1, 2]\n",
            "line 3: zero divisor\n",
        ),
        (
            "a = zeros(2)\nb = a // a\nc = zz",
            4,
            "",
            "line 2: zero divisor\n",
        ),
        ("print(1)\nprint(2)", 0, "1\n2\n", ""),
        (
            "a = full(3, 200, uint8)\nprint(a + 56)\nprint(a + 256)",
            4,
            "[0, 0, 0]\n",
            "line 3: range\n",
        ),
        (
            "print(full(1, -1, int8) + full(1, 255, uint8))",
            0,
            "[254]\n",
            "",
        ),
        (
            "print(full(1, 18446744073709551615, uint64) > full(1, -1))",
            0,
            "[True]\n",
            "",
        ),
        (
            "a = array([True, False])\nprint(a + True)\nprint(-a)",
            4,
            "[True, True]\n",
            "line 3: type\n",
        ),
        (
            "print(full(1, -8, int8) >> full(1, 9, int8))\nprint(full(1, 2) ** full(1, -1))",
            4,
            "[-1]\n",
            "line 2: power\n",
        ),
        (
            "a = arange(4)\nprint(where(a % 2 == 0, a, -a))",
            0,
            "[0, -1, 2, -3]\n",
            "",
        ),
        (
            "print(1 & 3)\nprint(True + True)\nprint(-9223372036854775808 - 1)",
            4,
            "1\n2\n",
            "line 3: range\n",
        ),
        // Names: the old array stays with the other name, and a name may be bound to its own value.
        (
            "a = arange(3)\nb = a\na = a * 2\nprint(b)\nprint(a)",
            0,
            "[0, 1, 2]\n[0, 2, 4]\n",
            "",
        ),
        (
            "a = 3\na = a * a\na = -a\nprint(a)\nprint(zeros(1, int8) + a)",
            0,
            "-9\n[-9]\n",
            "",
        ),
        (
            "a = True\nb = a\na = 2\nprint(b)\nprint(b + a)",
            0,
            "True\n3\n",
            "",
        ),
        (
            "n = 2 + 1\nprint(arange(n))\nprint(full(n - 1, n))",
            0,
            "[0, 1, 2]\n[3, 3]\n",
            "",
        ),
        // Blank lines count.
        (
            "\n \t\n\nprint(1)\n\nprint(zz)\nprint(2)",
            4,
            "1\n",
            "line 6: name\n",
        ),
        (
            "\n\nprint(1)\n\nprint(1 1)\nprint(zz)",
            3,
            "",
            "line 5: syntax\n",
        ),
        // Syntax comes before all faults, and the first bad line counts.
        ("print(zz)\nprint(\n= 2", 3, "", "line 2: syntax\n"),
    ];
    for (script, status, printed, logged) in rows {
        ends_with(&rt, rt.alloc(), script, status, printed, logged)?;
    }
    Ok(())
}
