//! The style of pictures, and their legend.

/// What stands at the beginning of a picture: the style, the heading of the first part, and the legend.
pub const STYLE: &str = "\
<style>
svg{background:#fff}
path{fill:none;shape-rendering:crispEdges}
text{font:120px monospace;fill:#222}
.name{text-anchor:end}
.heading{font:bold 150px sans-serif}
.row{stroke:#eee;stroke-width:120}
path.tick{stroke:#bbb;stroke-width:8}
text.tick{text-anchor:middle;fill:#555}
path.instant{stroke:#888;stroke-width:8}
text.instant{font-size:90px;fill:#555}
.ready,.running,.delayed,.queued,.ended{stroke-width:120}
.ready{stroke:#e69f00}
.running,.ran{stroke:#0072b2}
.delayed{stroke:#a6d4f2}
.queued,.waits{stroke:#cc79a7}
.ended{stroke:#fff}
.waits,.served{stroke-width:70}
.entered,.left{stroke-width:50}
.entered,.used{stroke:#009e73}
.served,.left{stroke:#eee}
.ran,.used{stroke-width:25}
.preempted{fill:#e69f00}
.late{fill:#d55e00}
.refused,.raised,.unhandled{stroke:#d55e00;stroke-width:30}
.line{fill:#f0e442;stroke:#222;stroke-width:10}
.input{fill:#222}
.last{font-weight:bold}
</style>
<text class=\"heading\" x=\"300\" y=\"350\">Over virtual time</text>
<g class=\"legend\">
<path class=\"delayed\" d=\"M300 660h300\"/><text x=\"680\" y=\"700\">delayed</text>
<path class=\"queued\" d=\"M2600 660h300\"/><text x=\"2980\" y=\"700\">in a queue</text>
<path class=\"ready\" d=\"M4900 660h300\"/><text x=\"5280\" y=\"700\">ready</text>
<path class=\"running\" d=\"M7200 660h300\"/><text x=\"7580\" y=\"700\">running</text>
<path class=\"entered\" d=\"M9800 660h300\"/><text x=\"10180\" y=\"700\">inside an object</text>
<path class=\"waits\" d=\"M12400 660h300\"/><text x=\"12780\" y=\"700\">call queued at it</text>
<path class=\"ran\" d=\"M450 1020v-120\"/><text x=\"680\" y=\"1000\">begins to run</text>
<path class=\"used\" d=\"M2750 1020v-120\"/><text x=\"2980\" y=\"1000\">enters object</text>
<path class=\"line\" d=\"M5050 1020v-150h110l-35 40 35 40h-110\"/><text x=\"5280\" y=\"1000\">writes a line</text>
<path class=\"preempted\" d=\"M7350 1020l-45-100h90z\"/><text x=\"7580\" y=\"1000\">is preempted</text>
<path class=\"late\" d=\"M9950 1020l-55-60 55-60 55 60z\"/><text x=\"10180\" y=\"1000\">is late</text>
<path class=\"raised\" d=\"M12550 1020m-50-110 100 100m0-100-100 100\"/><text x=\"12780\" y=\"1000\">exception, refusal</text>
<path class=\"input\" d=\"M14850 920l-50 90h100z\"/><text x=\"15080\" y=\"1000\">input</text>
</g>
";
